// What texts are read as, worked out by hand from the format.
use mvt_grammar::{Clock, MvtFault, read_flight, read_mvt, write_mvt};
use std::alloc::{AllocError, Global};

// Whether the text is read as the message that has this canonical text.
fn is_read_as(alloc: Global, text: &[u8], canonical: &[u8]) -> bool {
    let Ok(message) = read_mvt(text) else {
        return false;
    };
    match write_mvt(alloc, &message) {
        Ok(written) => written.as_slice() == canonical,
        Err(_) => false,
    }
}

// A message of these lines, for the aircraft of one flight.
fn message_of(alloc: Global, lines: &str) -> Result<Vec<u8>, AllocError> {
    let mut text = b"MVT\nLH1/27.DAIQA.APR\n".to_vec(alloc)?;
    text.extend_from_slice(lines.as_bytes())?;
    Ok(text)
}

// Whether the lines of a message are read as this element line.
fn are_elements(alloc: Global, lines: &str, elements: &str) -> Result<bool, AllocError> {
    let text = message_of(alloc, lines)?;
    let canonical = message_of(alloc, elements)?;
    Ok(is_read_as(alloc, &text, &canonical))
}

fn fault_of(text: &[u8]) -> Option<MvtFault> {
    match read_mvt(text) {
        Ok(_) => None,
        Err(fault) => Some(fault),
    }
}

const FIRST: Clock = Clock {
    day: None,
    minute: 600,
};

const SECOND: Clock = Clock {
    day: Some(31),
    minute: 610,
};

#[test]
fn times_are_minutes_of_the_day(rt: HostRuntime) {
    match read_mvt(b"MVT\nLH1/27.DAIQA.APR\nAD1000/311010\n") {
        Ok(message) => {
            assert!(rt; message.ad == Some((FIRST, Some(SECOND))) && message.day == 27);
            assert!(rt; message.aa.is_none() && message.ea.is_none() && message.ed.is_none());
        }
        Err(fault) => assert!(rt; false, "{fault:?}"),
    }
}

// Texts, and the canonical texts of what they are read as.
const ENVELOPES: [(&str, &str); 6] = [
    (
        "QU APROOXX\r\n.MUCKKLH 271000\r\nMVT\r\nLH0123/27.DAIQA.MUC \r\nAD2355/0008 EA0105 APR\r\nDL93/0015\r\nPX120\r\nSI NIL\r\n",
        "MVT\nLH123/27.DAIQA.MUC\nAD2355/0008 EA0105 APR\n",
    ),
    ("MVT\nLH1/27.DAIQA.APR", "MVT\nLH1/27.DAIQA.APR\n"),
    (
        "MVT  \r\n\r\n   \nLH1/27.D-1.APR  \r\n\r\n\nED1000   ",
        "MVT\nLH1/27.D-1.APR\nED1000\n",
    ),
    // one CR is removed, and only before the spaces
    (
        "MVT\r\r\nMVT\r \n MVT\nMVT\nLH1/01.D.APR\n",
        "MVT\nLH1/01.D.APR\n",
    ),
    // 1 line before the line MVT, and 20
    ("QU APROOXX\nMVT\nLH1/27.D-1.APR\n", "MVT\nLH1/27.D-1.APR\n"),
    (
        "1\n2\n3\n4\n5\n6\n7\n8\n9\n10\n11\n12\n13\n14\n15\n16\n17\n18\n19\n\nMVT\nLH1/31.ABCDEFGHIJ.APR\n",
        "MVT\nLH1/31.ABCDEFGHIJ.APR\n",
    ),
];

#[test]
fn envelopes_and_line_ends_are_passed_over(rt: HostRuntime) {
    for (text, canonical) in &ENVELOPES {
        let is_read = is_read_as(rt.alloc(), text.as_bytes(), canonical.as_bytes());
        assert!(rt; is_read, "at {text}");
    }
}

// Lines of a message, and the element line that they are read as.
const SHAPES: [(&str, &str); 15] = [
    ("AD1000", "AD1000\n"),
    ("AD311000\n", "AD311000\n"),
    ("AD0000/2359\n", "AD0000/2359\n"),
    ("AD011000/1010\n", "AD011000/1010\n"),
    ("AD1000/271010\n", "AD1000/271010\n"),
    ("AD271000/281010\n", "AD271000/281010\n"),
    ("AA1000\n", "AA1000\n"),
    ("AA271000/281010\n", "AA271000/281010\n"),
    ("AA1000/1010\n", "AA1000/1010\n"),
    ("EA1040 APR\n", "EA1040 APR\n"),
    ("EA271040   MUC\n", "EA271040 MUC\n"),
    ("ED1200\n", "ED1200\n"),
    ("ED281200\n", "ED281200\n"),
    (
        "ED1200 EA1040 MUC   AA0930/0940 AD0800\n",
        "AD0800 AA0930/0940 EA1040 MUC ED1200\n",
    ),
    (
        "ED1200\nEA1040 MUC\nDL1\nAD0800\nAA0930\n",
        "AD0800 AA0930 EA1040 MUC ED1200\n",
    ),
];

#[test]
fn elements_are_read_in_each_shape(rt: HostRuntime) {
    for (lines, elements) in &SHAPES {
        let are_read = are_elements(rt.alloc(), lines, elements) == Ok(true);
        assert!(rt; are_read, "at {lines}");
    }
}

// The same for lines with words that are no elements.
const STRANGERS: [(&str, &str); 19] = [
    ("AD1000/1010\nEDL31/0010\n", "AD1000/1010\n"),
    (
        "AD1000/1010 1020\nEA1040\nDL31/62/0010/0005\n=\n",
        "AD1000/1010\n",
    ),
    // a word that is no element ends its line, but not the reading
    ("AD1000 X AA1100\nED1200\n", "AD1000 ED1200\n"),
    ("AD1000 APR AA1100\n", "AD1000\n"),
    ("AD1000 EDX AA2460\n", "AD1000\n"),
    ("EA1040 APR MUC AD1000\n", "EA1040 APR\n"),
    (
        "DL93\nPX120\nRR1000\nFR1000\nNI271000\n AD2460\nad2460\nADX\nA\n",
        "",
    ),
    // an estimate of arrival without its station
    ("EA1040\nAPR\nED1100\n", "ED1100\n"),
    ("EA1040 AP AD1000\n", ""),
    ("EA1040 APRX\n", ""),
    ("EA1040 AD1000 ED1100\n", ""),
    ("EA1040 APR\nEA1050\n", "EA1040 APR\n"),
    // supplementary text
    ("SI\nAD1000\n", ""),
    ("SITA AD1000\n", ""),
    ("AD1000 SI AD2460\nED2460\n", "AD1000\n"),
    ("AD1000 SIX\nED1000\n", "AD1000\n"),
    ("X SI\nAD1000\n", "AD1000\n"),
    ("EA1040 SIN ED1000\n", "EA1040 SIN ED1000\n"),
    ("EA1040 SI\nED1000\n", "ED1000\n"),
];

#[test]
fn strangers_are_passed_over(rt: HostRuntime) {
    for (lines, elements) in &STRANGERS {
        let are_read = are_elements(rt.alloc(), lines, elements) == Ok(true);
        assert!(rt; are_read, "at {lines}");
    }
}

// Texts, and why they are refused.
const FAULTS: [(&str, MvtFault); 35] = [
    ("", MvtFault::NoIdentifier),
    ("mvt\n MVT\nMVT.\nMVTX\n", MvtFault::NoIdentifier),
    (
        "1\n2\n3\n4\n5\n6\n7\n8\n9\n10\n11\n12\n13\n14\n15\n16\n17\n18\n19\n20\n\nMVT\nLH1/27.DAIQA.APR\n",
        MvtFault::NoIdentifier,
    ),
    ("MVT", MvtFault::BadFlightLine),
    ("MVT\n\n  \n\r\n", MvtFault::BadFlightLine),
    ("MVT\n LH1/27.DAIQA.APR\n", MvtFault::BadFlightLine),
    ("MVT\nLH1/00.DAIQA.APR\n", MvtFault::BadFlightLine),
    ("MVT\nLH1/32.DAIQA.APR\n", MvtFault::BadFlightLine),
    ("MVT\nLH1/7.DAIQA.APR\n", MvtFault::BadFlightLine),
    ("MVT\nLH1/27.DAIQA.AP\n", MvtFault::BadFlightLine),
    ("MVT\nLH1/27.DAIQA.AP1\n", MvtFault::BadFlightLine),
    ("MVT\nLH1/27.DAIQA.APRX\n", MvtFault::BadFlightLine),
    ("MVT\nLH1/27.DAIQA\n", MvtFault::BadFlightLine),
    ("MVT\nLH1/27..APR\n", MvtFault::BadFlightLine),
    ("MVT\nLH1/27.ABCDEFGHIJK.APR\n", MvtFault::BadFlightLine),
    ("MVT\nLH1/27.daiqa.APR\n", MvtFault::BadFlightLine),
    ("MVT\nLH/27.DAIQA.APR\n", MvtFault::BadFlightLine),
    ("MVT\nLH1/27.DAIQA.APR\nAD2460\n", MvtFault::BadElement(21)),
    (
        "MVT\nLH1/27.DAIQA.APR\nAD1000 AD1000\n",
        MvtFault::Twice(28),
    ),
    (
        "MVT\nLH1/27.DAIQA.APR\nAD1000   AD1100 AA2460\n",
        MvtFault::Twice(30),
    ),
    (
        "MVT\nLH1/27.DAIQA.APR\nAD1000 AD2460\n",
        MvtFault::BadElement(28),
    ),
    (
        "MVT\nLH1/27.DAIQA.APR\nAD1000\nAD1000 AA9999\n",
        MvtFault::Twice(28),
    ),
    (
        "MVT\nLH1/27.DAIQA.APR\nAD1000 DL AD2460\nAA2400\n",
        MvtFault::BadElement(38),
    ),
    (
        "MVT\nLH1/27.DAIQA.APR\nEA1040 APR EA1050 MUC\n",
        MvtFault::Twice(32),
    ),
    (
        "MVT\r\nLH1/27.DAIQA.APR\r\nAD\r\n",
        MvtFault::BadElement(23),
    ),
    ("MVT\nLH1/27.DAIQA.APR\nAD 1000\n", MvtFault::BadElement(21)),
    (
        "MVT\nLH1/27.DAIQA.APR\nED1040/1050\n",
        MvtFault::BadElement(21),
    ),
    (
        "MVT\nLH1/27.DAIQA.APR\nEA1040/1050 APR\n",
        MvtFault::BadElement(21),
    ),
    (
        "MVT\nLH1/27.DAIQA.APR\nAA1000/1010/1020\n",
        MvtFault::BadElement(21),
    ),
    ("MVT\nLH1/27.DAIQA.APR\nAA1000/\n", MvtFault::BadElement(21)),
    (
        "MVT\nLH1/27.DAIQA.APR\nAD001000\n",
        MvtFault::BadElement(21),
    ),
    (
        "MVT\nLH1/27.DAIQA.APR\nAD321000\n",
        MvtFault::BadElement(21),
    ),
    ("MVT\nLH1/27.DAIQA.APR\nAD2360\n", MvtFault::BadElement(21)),
    ("MVT\nLH1/27.DAIQA.APR\nED100\n", MvtFault::BadElement(21)),
    ("MVT\nLH1/27.DAIQA.APR\nED10000\n", MvtFault::BadElement(21)),
];

#[test]
fn faults_are_found_at_their_bytes(rt: HostRuntime) {
    for (text, fault) in &FAULTS {
        let is_refused = fault_of(text.as_bytes()) == Some(*fault);
        assert!(rt; is_refused, "at {text}");
    }
}

// The fault of a text of this length.
fn fault_at(alloc: Global, length: usize) -> Result<Option<MvtFault>, AllocError> {
    let mut text = message_of(alloc, "AD1000")?;
    text.resize(length, b' ')?;
    Ok(fault_of(&text))
}

#[test]
fn the_length_of_a_text_is_bounded(rt: HostRuntime) {
    assert!(rt; fault_at(rt.alloc(), 4000) == Ok(None));
    assert!(rt; fault_at(rt.alloc(), 4001) == Ok(Some(MvtFault::TooLong)));
}

// Whether the text is read as the flight of this airline, number and suffix.
fn is_flight(text: &str, airline: &str, number: u16, suffix: Option<u8>) -> bool {
    match read_flight(text.as_bytes()) {
        Some(flight) => {
            flight.airline.bytes() == airline.as_bytes()
                && flight.number == number
                && flight.suffix == suffix
        }
        None => false,
    }
}

// Texts of flights, and the airline, number and suffix of each.
const FLIGHTS: [(&str, &str, u16, Option<u8>); 6] = [
    ("LH1", "LH", 1, None),
    ("LH0123", "LH", 123, None),
    ("LH0000A", "LH", 0, Some(b'A')),
    ("LHA9999Z", "LHA", 9999, Some(b'Z')),
    ("A112", "A1", 12, None),
    ("1A23", "1A", 23, None),
];

#[test]
fn flights_are_read(rt: HostRuntime) {
    for (text, airline, number, suffix) in FLIGHTS {
        assert!(rt; is_flight(text, airline, number, suffix), "at {text}");
    }
}

const NO_FLIGHTS: [&str; 14] = [
    "", "L", "LH", "LHA", "LH00001", "1234", "A1 12", "LHa1", "lh1", "LHAB1", "LH1AB", "LH1a",
    "1LH1", "L-1",
];

#[test]
fn other_texts_are_no_flights(rt: HostRuntime) {
    for text in &NO_FLIGHTS {
        assert!(rt; read_flight(text.as_bytes()).is_none(), "at {text}");
    }
}
