// Season files at an airport of two types and three days.
ghost use Rattle.std.specs.Prelude.{◌≡◌, All, IfOk};
ghost use Rattle.visit_book.specs.NewVisits.{IsNewVisitOf, new_of};

use apron_base::{Listed, Name, TypeNo, VisitNo};
use apron_rules::{Airport, TypeRow};
use mvt_grammar::Flight;
use season_files::{SeasonFault, read_season, write_season};
use std::alloc::{AllocError, Global};
use std::test::Fail;
use test_airports::{on_one_frontage, stand_on_n, type_of_40};
use visit_book::{End, Key, NewVisit, Visit, added_visit};

const HEADER: &str = "name,type,class,on,off,arr,arrday,dep,depday\n";

const TWO: &str =
    "name,type,class,on,off,arr,arrday,dep,depday\nV1,A320,3,600,660,LH123,1,LH124,1\nV2,AT76,5,700,760,,,,\n";

// No more bytes than this are read.
const MOST: usize = 1_000_000;

// One stand, N1, and two types, with 40 and 25 least minutes.
fn airport(alloc: Global) -> Result<Airport, Fail> {
    let turboprop = TypeRow::without_folding(Name::literal(b"AT76"), 2_705, 25);
    on_one_frontage(
        alloc,
        Vec::from_array(alloc, [stand_on_n(Name::literal(b"N1"), 4_000)])?,
        Vec::from_array(alloc, [type_of_40(Name::literal(b"A320")), turboprop])?,
    )
}

// The visits that a text gives.
fn season(alloc: Global, airport: &Airport, text: &[u8]) -> Result<Listed<NewVisit>, SeasonFault>
    ensures new { IfOk result (All (IsNewVisitOf airport.now)) }
{
    if text.len() > MOST {
        return Err(SeasonFault::Memory);
    }
    read_season(alloc, airport, text)
}

// The number of the first record that is refused, 0 if none is.
fn refused(alloc: Global, text: &str) -> Result<Option<u32>, Fail> {
    let airport = airport(alloc)?;
    Ok(match season(alloc, &airport, text.as_bytes()) {
        Ok(_) => Some(0),
        Err(SeasonFault::BadRow(record)) => Some(record),
        Err(SeasonFault::Memory) => None,
    })
}

// The same for the header and these records.
fn refused_behind(alloc: Global, records: &str) -> Result<Option<u32>, Fail> {
    let text = format!(in alloc; "{HEADER}{records}")?;
    refused(alloc, text.as_str())
}

// Visits that were added with these data; the first `cancelled` of them are cancelled.
fn visits(
    alloc: Global,
    airport: &Airport,
    season: &[NewVisit],
    cancelled: usize,
) -> Result<Vec<Visit>, Fail>
    requires new { All (IsNewVisitOf airport.now) season.now }
    ensures new { IfOk result (λ visits.
        All (λ visit. IsNewVisitOf airport.now (new_of visit)) visits.items) }
{
    let mut visits = Vec::new(alloc);
    for (place, new) in season.iter().enumerate() {
        visits.push(visit_of(new, place < cancelled))?;
    }
    Ok(visits)
}

fn visit_of(new: &NewVisit, cancelled: bool) -> Visit
    ensures new { new_of result ≡ new.now }
{
    let visit = added_visit(VisitNo(1), 1, new);
    let end = if cancelled { End::Cancelled } else { End::Live };
    Visit { end, ..visit }
}

// What is written of the visits that a text gives; the first `cancelled` of them are cancelled.
fn rewritten(alloc: Global, text: &str, cancelled: usize) -> Result<Listed<u8>, Fail> {
    let airport = airport(alloc)?;
    let Ok(season) = season(alloc, &airport, text.as_bytes()) else {
        return Err(Fail::new("a season"));
    };
    let visits = visits(alloc, &airport, season.as_slice(), cancelled)?;
    match write_season(alloc, &airport, visits.as_slice()) {
        Ok(text) => Ok(text),
        Err(_) => Err(Fail::new("memory")),
    }
}

// Whether that is this text.
fn is_rewritten(alloc: Global, text: &str, cancelled: usize, want: &str) -> Result<bool, Fail> {
    let found = rewritten(alloc, text, cancelled)?;
    Ok(found.as_slice() == want.as_bytes())
}

// What a text shows, the text, how many of its two visits are cancelled, and what is written.
const TEXTS: [(&'static str, &'static str, usize, &'static str); 8] = [
    ("as it is written", TWO, 0, TWO),
    (
        "a byte order mark",
        "\u{feff}name,type,class,on,off,arr,arrday,dep,depday\nV1,A320,3,600,660,LH123,1,LH124,1\nV2,AT76,5,700,760,,,,\n",
        0,
        TWO,
    ),
    (
        "CR LF, and none behind the last record",
        "name,type,class,on,off,arr,arrday,dep,depday\r\nV1,A320,3,600,660,LH123,1,LH124,1\r\nV2,AT76,5,700,760,,,,",
        0,
        TWO,
    ),
    (
        "quotes",
        "\"name\",type,class,on,off,arr,arrday,dep,depday\n\"V1\",A320,\"3\",600,660,\"LH123\",1,LH124,1\nV2,AT76,5,700,760,\"\",,,\n",
        0,
        TWO,
    ),
    (
        "empty lines",
        "\n\nname,type,class,on,off,arr,arrday,dep,depday\n\nV1,A320,3,600,660,LH123,1,LH124,1\n\r\nV2,AT76,5,700,760,,,,\n\n",
        0,
        TWO,
    ),
    (
        "leading zeros",
        "name,type,class,on,off,arr,arrday,dep,depday\nV1,A320,03,000000600,0660,LH0123,001,LH124,1\nV2,AT76,5,700,760,,,,\n",
        0,
        TWO,
    ),
    (
        "the first is cancelled",
        TWO,
        1,
        "name,type,class,on,off,arr,arrday,dep,depday\nV2,AT76,5,700,760,,,,\n",
    ),
    ("both are cancelled", TWO, 2, HEADER),
];

#[test]
fn two_visits_are_written_as_they_were_read(rt: HostRuntime) -> Result<(), Fail> {
    for (what, text, cancelled, want) in TEXTS {
        let is = is_rewritten(rt.alloc(), text, cancelled, want)?;
        assert!(rt; is, "{what}");
    }
    Ok(())
}

// A flight of LH, which leaves its origin on the first day.
fn of_first_day(number: u16) -> Key {
    let flight = Flight {
        airline: Name::literal(b"LH"),
        number,
        suffix: None,
    };
    Key { flight, day: 1 }
}

#[test]
fn two_visits_are_read_with_all_that_they_are_added_with(rt: HostRuntime) -> Result<(), Fail> {
    let airport = airport(rt.alloc())?;
    let Ok(found) = season(rt.alloc(), &airport, TWO.as_bytes()) else {
        return Err(Fail::new("a season"));
    };
    let first = NewVisit {
        name: Name::literal(b"V1"),
        kind: TypeNo(0),
        class: 3,
        on: 600,
        off: 660,
        arr: Some(of_first_day(123)),
        dep: Some(of_first_day(124)),
    };
    let second = NewVisit {
        name: Name::literal(b"V2"),
        kind: TypeNo(1),
        class: 5,
        on: 700,
        off: 760,
        arr: None,
        dep: None,
    };
    assert!(rt; found.as_slice() == [first, second].as_slice());
    Ok(())
}

const WITHOUT_THE_HEADER: [&'static str; 6] = [
    "",
    "\n\r\n",
    "V1,A320,3,600,660,LH123,1,LH124,1\n",
    "name,type,class,on,off,arr,arrday,dep\n",
    "name,type,class,on,off,arr,arrday,dep,depday,\n",
    "name,type,class,on,off,arr,arrday,dep,Depday\n",
];

#[test]
fn a_text_without_the_header_is_refused_at_it(rt: HostRuntime) -> Result<(), Fail> {
    for text in WITHOUT_THE_HEADER {
        let found = refused(rt.alloc(), text)?;
        assert!(rt; found == Some(1), "{text}");
    }
    Ok(())
}

// Records after the header, and the number of the first that is refused; the header is number 1.
const RECORDS: [(&'static str, u32); 47] = [
    ("", 0),
    ("V1,A320,3,600,660,LH123,1,LH124\n", 2),
    ("V1,A320,3,600,660,LH123,1,LH124,1,\n", 2),
    (",A320,3,600,660,,,,\n", 2),
    ("v1,A320,3,600,660,,,,\n", 2),
    ("V 1,A320,3,600,660,,,,\n", 2),
    (" V1,A320,3,600,660,,,,\n", 2),
    ("V-1234567890,A320,3,600,660,,,,\n", 0),
    ("V-12345678901,A320,3,600,660,,,,\n", 2),
    ("V1,,3,600,660,,,,\n", 2),
    ("V1,A321,3,600,660,,,,\n", 2),
    ("V1,a320,3,600,660,,,,\n", 2),
    ("V1,A320,,600,660,,,,\n", 2),
    ("V1,A320,9,600,660,,,,\n", 0),
    ("V1,A320,10,600,660,,,,\n", 2),
    ("V1,A320,C,600,660,,,,\n", 2),
    ("V1,A320,3,,660,,,,\n", 2),
    ("V1,A320,3,-1,660,,,,\n", 2),
    ("V1,A320,3,+600,660,,,,\n", 2),
    ("V1,A320,3,6.0,660,,,,\n", 2),
    ("V1,A320,3,0000000600,660,,,,\n", 2),
    ("V1,AT76,3,4320,4320,,,,\n", 2),
    ("V1,AT76,3,4295,4320,,,,\n", 0),
    ("V1,AT76,3,4296,4321,,,,\n", 2),
    ("V1,A320,3,600,,,,,\n", 2),
    ("V1,A320,3,600,640,,,,\n", 0),
    ("V1,A320,3,600,639,,,,\n", 2),
    ("V1,A320,3,600,600,,,,\n", 2),
    ("V1,A320,3,600,660,LH,1,,\n", 2),
    ("V1,A320,3,600,660,LH12345,1,,\n", 2),
    ("V1,A320,3,600,660,lh123,1,,\n", 2),
    ("V1,A320,3,600,660,LH123,,,\n", 2),
    ("V1,A320,3,600,660,,1,,\n", 2),
    ("V1,A320,3,600,660,LH123,0,,\n", 0),
    ("V1,A320,3,600,660,LH123,3,,\n", 0),
    ("V1,A320,3,600,660,LH123,4,,\n", 2),
    ("V1,A320,3,600,660,LH123,257,,\n", 2),
    ("V1,A320,3,600,660,LH123,D,,\n", 2),
    ("V1,A320,3,600,660,,,LH,1\n", 2),
    ("V1,A320,3,600,660,,,LH123,\n", 2),
    ("V1,A320,3,600,660,,,,1\n", 2),
    ("V1,A320,3,600,660,,,LH123,3\n", 0),
    ("V1,A320,3,600,660,,,LH123,4\n", 2),
    (
        "V1,A320,3,600,660,,,,\nV2,AT76,5,700,760,,,,\nV1,A320,4,600,660,,,,\n",
        0,
    ),
    (
        "V1,A320,3,600,660,,,,\n\nV2,AT77,5,700,760,,,,\nV1,A320,10,600,660,,,,\n",
        3,
    ),
    ("V1,A320,3,600,660,,,,\nV2\nV1,A320,10,600,660,,,,\n", 3),
    (
        "V1,A320,3,600,660,,,,\n\"V2,AT76,5,700,760,,,,\nV3,A320,10,600,660,,,,\n",
        3,
    ),
];

#[test]
fn the_first_refused_record_is_named(rt: HostRuntime) -> Result<(), Fail> {
    for (records, want) in RECORDS {
        let found = refused_behind(rt.alloc(), records)?;
        assert!(rt; found == Some(want), "{records}");
    }
    Ok(())
}

// The season of a thousand visits.
fn thousand(alloc: Global) -> Result<String, AllocError> {
    let mut text = String::from_str(alloc, HEADER)?;
    for number in 1..1001 {
        let line = format!(in alloc; "V{number},AT76,5,700,760,LH{number}A,1,,\n")?;
        text.push_str(line.as_str())?;
    }
    Ok(text)
}

#[test]
fn a_thousand_visits_are_written_as_they_were_read(rt: HostRuntime) -> Result<(), Fail> {
    let text = thousand(rt.alloc())?;
    let is = is_rewritten(rt.alloc(), text.as_str(), 0, text.as_str())?;
    assert!(rt; is);
    Ok(())
}
