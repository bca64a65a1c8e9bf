// The files of an airport at every limit: 50 frontages with 50 objects each, 400 stands, 1,000
// restrictions of pairs, 14 days and 400 types.
use std::alloc::{AllocError, Global};

const FRONTAGES: u32 = 50;

const OBJECTS: u32 = 50;

const STANDS: u32 = 400;

const PAIRS: u32 = 1000;

const TYPES: u32 = 400;

/// The airport file. The stands are 80 m apart, eight on each frontage.
pub(crate) fn airport_file(alloc: Global) -> Result<String, AllocError> {
    let mut text = format!(in alloc;
        "[airport]\nstation = \"APR\"\nfirst_day = \"2026-03-27\"\ndays = 14\ntaxi_in = 60\ntow = 240\n"
    )?;
    add_frontages(alloc, &mut text)?;
    add_stands(alloc, &mut text)?;
    add_pairs(alloc, &mut text)?;
    Ok(text)
}

fn add_frontages(alloc: Global, text: &mut String) -> Result<(), AllocError> {
    let objects = objects(alloc)?;
    for number in 0..FRONTAGES {
        let row = format!(in alloc; "[[frontage]]\nname = \"F{number}\"\nobjects = [{objects}]\n")?;
        text.push_str(row.as_str())?;
    }
    Ok(())
}

// The places of the objects of one frontage, beyond its stands.
fn objects(alloc: Global) -> Result<String, AllocError> {
    let mut places = format!(in alloc; "90000")?;
    for number in 1..OBJECTS {
        let place = format!(in alloc; ", {}", 90_000 + number)?;
        places.push_str(place.as_str())?;
    }
    Ok(places)
}

fn add_stands(alloc: Global, text: &mut String) -> Result<(), AllocError> {
    for number in 0..STANDS {
        let row = format!(in alloc;
            "[[stand]]\nname = \"S{number}\"\nfrontage = \"F{}\"\ncentre = {}\nletter = \"F\"\nbuffer = 240\n",
            number / 8,
            8000 * (number % 8)
        )?;
        text.push_str(row.as_str())?;
    }
    Ok(())
}

// Each stand with the one, two or three after it.
fn add_pairs(alloc: Global, text: &mut String) -> Result<(), AllocError> {
    for number in 0..PAIRS {
        let a = number % STANDS;
        let b = (a + 1 + number / STANDS) % STANDS;
        let row = format!(in alloc;
            "[[pair]]\na = \"S{a}\"\nla = \"A\"\nb = \"S{b}\"\nlb = \"F\"\n"
        )?;
        text.push_str(row.as_str())?;
    }
    Ok(())
}

/// The type file. The spans run from 79.99 m down.
pub(crate) fn type_file(alloc: Global) -> Result<String, AllocError> {
    let mut text = format!(in alloc; "type,span,least\n")?;
    for number in 0..TYPES {
        let row = format!(in alloc; "T{number},{},600\n", 7999 - number)?;
        text.push_str(row.as_str())?;
    }
    Ok(text)
}
