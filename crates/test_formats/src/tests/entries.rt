// Entries, read and written again, and the first fault of bytes that are none.
use apron_base::{Name, StandNo, TypeNo, VisitNo};
use apron_rules::Airport;
use desk_asks::Command;
use entry_bytes::{EntryFault, convert_entry, decode_entry, encode_entry};
use mvt_grammar::{Clock, Flight, Mvt};
use std::alloc::Global;
use std::test::Fail;
use test_airports::{on_one_frontage, stand_on_n, type_of_40};
use visit_book::{Edit, Event, Key, NewVisit};

// Six stands, seven types, and three days.
fn airport(alloc: Global) -> Result<Airport, Fail> {
    let stands = [
        stand_on_n(Name::literal(b"N1"), 4_000),
        stand_on_n(Name::literal(b"N2"), 8_030),
        stand_on_n(Name::literal(b"N3"), 12_060),
        stand_on_n(Name::literal(b"N4"), 16_090),
        stand_on_n(Name::literal(b"N5"), 20_120),
        stand_on_n(Name::literal(b"N6"), 24_150),
    ];
    let types = [
        type_of_40(Name::literal(b"A319")),
        type_of_40(Name::literal(b"A320")),
        type_of_40(Name::literal(b"A321")),
        type_of_40(Name::literal(b"B737")),
        type_of_40(Name::literal(b"B738")),
        type_of_40(Name::literal(b"B739")),
        type_of_40(Name::literal(b"E190")),
    ];
    on_one_frontage(
        alloc,
        Vec::from_array(alloc, stands)?,
        Vec::from_array(alloc, types)?,
    )
}

// V1 is an aircraft of the first type, of class 3, from 600 to 660.
const ADDED: &[u8] = b"\x01\0\0\0\0\0\0\0\x01\x02V1\0\0\x03\x58\x02\0\0\x94\x02\0\0\0\0";

// Draft 1 of the desk D puts it on the first stand.
const PUT: &[u8] = b"\x02\0\0\0\0\0\0\0\x02\x01D\x01\0\0\0\x01\0\0\0\x01\x01\x01\0\0\0\x01\0\0";

// V2 is an aircraft of the fourth type, of class 5, from 700 to 760. It comes by LH123 of day 1,
// and leaves by LH124A of day 2.
const KEYED: &[u8] =
    b"\x03\0\0\0\0\0\0\0\x01\x02V2\x03\0\x05\xBC\x02\0\0\xF8\x02\0\0\x01\x02LH\x7B\0\0\x01\x01\x02LH\x7C\0A\x02";

// With the greatest call number: put 1.2 on the last stand, lift 258.1, cut 1.1 at 630, join 1.1.
const EDITED: &[u8] =
    b"\xFF\xFF\xFF\xFF\xFF\xFF\xFF\x3F\x02\x01D\x02\0\0\0\x09\0\0\0\x04\x01\x01\0\0\0\x02\x05\0\x02\x02\x01\0\0\x01\x03\x01\0\0\0\x01\x76\x02\0\0\x04\x01\0\0\0\x01";

// The desk OPS passed on an estimate for LH123 of the 27th, of 34 bytes.
const MESSAGE: &[u8] = b"\x04\0\0\0\0\0\0\0\x06\x03OPS\x22MVT\nLH123/27.DABCD.MUC\nEA0620 APR\n";

// The same estimate, of no desk.
const NO_DESKS_MESSAGE: &[u8] =
    b"\x04\0\0\0\0\0\0\0\x06\x01-\x22MVT\nLH123/27.DABCD.MUC\nEA0620 APR\n";

// The desk OPS reports that part 1 of visit 2 came on block on the last stand at 610.
const CAME: &[u8] = b"\x05\0\0\0\0\0\0\0\x07\x03OPS\x02\0\0\0\x01\x01\x05\0\x62\x02\0\0";

// The same, of no desk.
const NO_DESK_CAME: &[u8] = b"\x05\0\0\0\0\0\0\0\x07\x01-\x02\0\0\0\x01\x01\x05\0\x62\x02\0\0";

// The desk OPS reports that visit 2 went off block at 660.
const WENT: &[u8] = b"\x06\0\0\0\0\0\0\0\x07\x03OPS\x02\0\0\0\x02\x94\x02\0\0";

// The same, of no desk.
const NO_DESK_WENT: &[u8] = b"\x06\0\0\0\0\0\0\0\x07\x01-\x02\0\0\0\x02\x94\x02\0\0";

// Visit 258 is cancelled.
const CANCELLED: &[u8] = b"\x07\0\0\0\0\0\0\0\x05\x02\x01\0\0";

// The bytes that are written of the entry that is read of these.
#[tactic(auto, using(entry_bytes::proofs::CommandsOf::command_of))]
fn again(alloc: Global, airport: &Airport, bytes: &[u8]) -> Option<Vec<u8>> {
    let entry = decode_entry(alloc, airport, bytes).ok()?;
    let again = encode_entry(alloc, &entry).ok()?;
    Some(again.into_vec())
}

fn is_same(alloc: Global, airport: &Airport, bytes: &[u8]) -> bool {
    match again(alloc, airport, bytes) {
        Some(again) => again.as_slice() == bytes,
        None => false,
    }
}

#[test]
fn entries_are_read_and_written_again(rt: HostRuntime) -> Result<(), Fail> {
    let airport = airport(rt.alloc())?;
    let entries = [
        ADDED,
        PUT,
        KEYED,
        EDITED,
        MESSAGE,
        NO_DESKS_MESSAGE,
        CAME,
        NO_DESK_CAME,
        WENT,
        NO_DESK_WENT,
        CANCELLED,
    ];
    for bytes in entries {
        assert!(rt; is_same(rt.alloc(), &airport, bytes), "of {bytes:?}");
    }
    Ok(())
}

// The command that is read of these bytes, which have this call number.
fn command_of(alloc: Global, bytes: &[u8], call: u64) -> Result<Command, Fail> {
    let airport = airport(alloc)?;
    match decode_entry(alloc, &airport, bytes) {
        Ok(entry) if entry.call == call => Ok(entry.command),
        _ => Err(Fail::new("an entry of this call number")),
    }
}

fn lufthansa(number: u16, suffix: Option<u8>) -> Flight {
    Flight {
        airline: Name::literal(b"LH"),
        number,
        suffix,
    }
}

#[test]
fn a_visit_is_read_with_all_that_it_was_added_with(rt: HostRuntime) -> Result<(), Fail> {
    let Command::AddVisit(new) = command_of(rt.alloc(), KEYED, 3)? else {
        return Err(Fail::new("a visit"));
    };
    let wanted = NewVisit {
        name: Name::literal(b"V2"),
        kind: TypeNo(3),
        class: 5,
        on: 700,
        off: 760,
        arr: Some(Key {
            flight: lufthansa(123, None),
            day: 1,
        }),
        dep: Some(Key {
            flight: lufthansa(124, Some(b'A')),
            day: 2,
        }),
    };
    assert!(rt; new == wanted);
    Ok(())
}

#[test]
fn a_commit_is_read_with_its_edits(rt: HostRuntime) -> Result<(), Fail> {
    let Command::Commit(draft) = command_of(rt.alloc(), EDITED, 0x3FFF_FFFF_FFFF_FFFF)? else {
        return Err(Fail::new("a commit"));
    };
    let wanted = [
        Edit::Put {
            visit: VisitNo(1),
            part: 2,
            stand: StandNo(5),
        },
        Edit::Lift {
            visit: VisitNo(258),
            part: 1,
        },
        Edit::Cut {
            visit: VisitNo(1),
            part: 1,
            at: 630,
        },
        Edit::Join {
            visit: VisitNo(1),
            part: 1,
        },
    ];
    assert!(rt; draft.desk == Name::literal(b"D"));
    assert_eq!(rt; (draft.number, draft.base), (2, 9));
    assert!(rt; draft.edits.as_slice() == wanted.as_slice());
    Ok(())
}

#[test]
fn a_message_is_read_with_its_desk_and_its_estimate(rt: HostRuntime) -> Result<(), Fail> {
    let at_0620 = Clock {
        day: None,
        minute: 380,
    };
    let wanted = Mvt {
        flight: lufthansa(123, None),
        day: 27,
        registration: Name::literal(b"DABCD"),
        station: Name::literal(b"MUC"),
        ad: None,
        aa: None,
        ea: Some((at_0620, Name::literal(b"APR"))),
        ed: None,
    };
    let messages = [
        (MESSAGE, Name::literal(b"OPS")),
        (NO_DESKS_MESSAGE, Name::literal(b"-")),
    ];
    for (bytes, name) in messages {
        let Command::Message(passed) = command_of(rt.alloc(), bytes, 4)? else {
            return Err(Fail::new("a message"));
        };
        assert!(rt; passed.desk == name);
        assert!(rt; passed.message == wanted);
    }
    Ok(())
}

#[test]
fn reports_are_read_with_their_desks_and_cancels_with_their_visits(
    rt: HostRuntime,
) -> Result<(), Fail> {
    let on = Event::On {
        part: 1,
        stand: StandNo(5),
        minute: 610,
    };
    let off = Event::Off { minute: 660 };
    let reports = [
        (CAME, 5, Name::literal(b"OPS"), on),
        (NO_DESK_CAME, 5, Name::literal(b"-"), on),
        (WENT, 6, Name::literal(b"OPS"), off),
        (NO_DESK_WENT, 6, Name::literal(b"-"), off),
    ];
    for (bytes, call, name, wanted) in reports {
        let Command::Report(report) = command_of(rt.alloc(), bytes, call)? else {
            return Err(Fail::new("a report"));
        };
        assert!(rt; report.desk == name);
        assert_eq!(rt; report.visit, VisitNo(2));
        assert_eq!(rt; report.event, wanted);
    }
    let Command::Cancel(visit) = command_of(rt.alloc(), CANCELLED, 7)? else {
        return Err(Fail::new("a cancel"));
    };
    assert_eq!(rt; visit, VisitNo(258));
    Ok(())
}

const FAULTS: [(&[u8], EntryFault); 70] = [
    (b"", EntryFault::BadField(0)),
    (b"\x01\0\0\0\0\0\0", EntryFault::BadField(0)),
    (b"\0\0\0\0\0\0\0\x40\x09", EntryFault::BadField(0)),
    (b"\x01\0\0\0\0\0\0\0", EntryFault::BadField(8)),
    (b"\x01\0\0\0\0\0\0\0\0", EntryFault::BadKind),
    (b"\x01\0\0\0\0\0\0\0\x08", EntryFault::BadKind),
    (b"\x01\0\0\0\0\0\0\0\x01", EntryFault::BadField(9)),
    (b"\x01\0\0\0\0\0\0\0\x01\0", EntryFault::BadField(9)),
    (b"\x01\0\0\0\0\0\0\0\x01\x02V", EntryFault::BadField(9)),
    (b"\x01\0\0\0\0\0\0\0\x01\x02v1", EntryFault::BadField(9)),
    (
        b"\x01\0\0\0\0\0\0\0\x01\x0DABCDEFGHIJKLM",
        EntryFault::BadField(9),
    ),
    (b"\x01\0\0\0\0\0\0\0\x01\x02V1\0", EntryFault::BadField(12)),
    (
        b"\x01\0\0\0\0\0\0\0\x01\x02V1\x07\0",
        EntryFault::BadField(12),
    ),
    (
        b"\x01\0\0\0\0\0\0\0\x01\x02V1\0\0",
        EntryFault::BadField(14),
    ),
    (
        b"\x01\0\0\0\0\0\0\0\x01\x02V1\0\0\x0A",
        EntryFault::BadField(14),
    ),
    (
        b"\x01\0\0\0\0\0\0\0\x01\x02V1\0\0\x03\x58\x02\0",
        EntryFault::BadField(15),
    ),
    (
        b"\x01\0\0\0\0\0\0\0\x01\x02V1\0\0\x03\xE0\x10\0\0\x94",
        EntryFault::BadField(15),
    ),
    (
        b"\x01\0\0\0\0\0\0\0\x01\x02V1\0\0\x03\x58\x02\0\0\x94",
        EntryFault::BadField(19),
    ),
    (
        b"\x01\0\0\0\0\0\0\0\x01\x02V1\0\0\x03\x58\x02\0\0\xE1\x10\0\0",
        EntryFault::BadField(19),
    ),
    (
        b"\x01\0\0\0\0\0\0\0\x01\x02V1\0\0\x03\x58\x02\0\0\x7F\x02\0\0",
        EntryFault::BadField(19),
    ),
    (
        b"\x01\0\0\0\0\0\0\0\x01\x02V1\0\0\x03\x58\x02\0\0\x80\x02\0\0",
        EntryFault::BadField(23),
    ),
    (
        b"\x01\0\0\0\0\0\0\0\x01\x02V1\0\0\x03\x58\x02\0\0\xE0\x10\0\0\x02",
        EntryFault::BadField(23),
    ),
    (
        b"\x01\0\0\0\0\0\0\0\x01\x02V1\0\0\x03\x58\x02\0\0\x94\x02\0\0\x01\x02L",
        EntryFault::BadField(24),
    ),
    (
        b"\x01\0\0\0\0\0\0\0\x01\x02V1\0\0\x03\x58\x02\0\0\x94\x02\0\0\x01\x0212",
        EntryFault::BadField(24),
    ),
    (
        b"\x01\0\0\0\0\0\0\0\x01\x02V1\0\0\x03\x58\x02\0\0\x94\x02\0\0\x01\x02LH\x10\x27",
        EntryFault::BadField(27),
    ),
    (
        b"\x01\0\0\0\0\0\0\0\x01\x02V1\0\0\x03\x58\x02\0\0\x94\x02\0\0\x01\x02LH\x0F\x27a",
        EntryFault::BadField(29),
    ),
    (
        b"\x01\0\0\0\0\0\0\0\x01\x02V1\0\0\x03\x58\x02\0\0\x94\x02\0\0\x01\x02LH\x7B\0A\x04",
        EntryFault::BadField(30),
    ),
    (
        b"\x01\0\0\0\0\0\0\0\x01\x02V1\0\0\x03\x58\x02\0\0\x94\x02\0\0\x01\x02LH\x7B\0\0\x03",
        EntryFault::BadField(31),
    ),
    (
        b"\x01\0\0\0\0\0\0\0\x01\x02V1\0\0\x03\x58\x02\0\0\x94\x02\0\0\0\0\0",
        EntryFault::TrailingBytes(25),
    ),
    (b"\x02\0\0\0\0\0\0\0\x02\x01d", EntryFault::BadField(9)),
    (
        b"\x02\0\0\0\0\0\0\0\x02\x01D\x01\0\0",
        EntryFault::BadField(11),
    ),
    (
        b"\x02\0\0\0\0\0\0\0\x02\x01D\x01\0\0\0\x01\0\0",
        EntryFault::BadField(15),
    ),
    (
        b"\x02\0\0\0\0\0\0\0\x02\x01D\x01\0\0\0\x01\0\0\0\0",
        EntryFault::BadField(19),
    ),
    (
        b"\x02\0\0\0\0\0\0\0\x02\x01D\x01\0\0\0\x01\0\0\0\x41",
        EntryFault::BadField(19),
    ),
    (
        b"\x02\0\0\0\0\0\0\0\x02\x01D\x01\0\0\0\x01\0\0\0\x40",
        EntryFault::BadField(20),
    ),
    (
        b"\x02\0\0\0\0\0\0\0\x02\x01D\x01\0\0\0\x01\0\0\0\x01\x05",
        EntryFault::BadField(20),
    ),
    (
        b"\x02\0\0\0\0\0\0\0\x02\x01D\x01\0\0\0\x01\0\0\0\x01\x02\x01\0\0",
        EntryFault::BadField(21),
    ),
    (
        b"\x02\0\0\0\0\0\0\0\x02\x01D\x01\0\0\0\x01\0\0\0\x01\x04\x01\0\0\0",
        EntryFault::BadField(25),
    ),
    (
        b"\x02\0\0\0\0\0\0\0\x02\x01D\x01\0\0\0\x01\0\0\0\x01\x01\x01\0\0\0\x01\x06\0",
        EntryFault::BadField(26),
    ),
    (
        b"\x02\0\0\0\0\0\0\0\x02\x01D\x01\0\0\0\x01\0\0\0\x01\x03\x01\0\0\0\x01\x76\x02\0",
        EntryFault::BadField(26),
    ),
    (
        b"\x02\0\0\0\0\0\0\0\x02\x01D\x01\0\0\0\x01\0\0\0\x02\x02\x01\0\0\0\x01",
        EntryFault::BadField(26),
    ),
    (
        b"\x02\0\0\0\0\0\0\0\x02\x01D\x01\0\0\0\x01\0\0\0\x01\x02\x01\0\0\0\x01\0",
        EntryFault::TrailingBytes(26),
    ),
    (b"\x04\0\0\0\0\0\0\0\x06", EntryFault::BadField(9)),
    (
        b"\x04\0\0\0\0\0\0\0\x06\0\x11MVT\nLH0/01.A.APR\n",
        EntryFault::BadField(9),
    ),
    (
        b"\x04\0\0\0\0\0\0\0\x06\x0DABCDEFGHIJKLM\x11MVT\nLH0/01.A.APR\n",
        EntryFault::BadField(9),
    ),
    (
        b"\x04\0\0\0\0\0\0\0\x06\x03ops\x11MVT\nLH0/01.A.APR\n",
        EntryFault::BadField(9),
    ),
    (b"\x04\0\0\0\0\0\0\0\x06\x03OP", EntryFault::BadField(9)),
    (b"\x04\0\0\0\0\0\0\0\x06\x03OPS", EntryFault::BadField(13)),
    (
        b"\x04\0\0\0\0\0\0\0\x06\x03OPS\x11MVT\nLH0/01.A.APR",
        EntryFault::BadField(13),
    ),
    (
        b"\x04\0\0\0\0\0\0\0\x06\x03OPS\x04MVT\n",
        EntryFault::BadField(13),
    ),
    (
        b"\x04\0\0\0\0\0\0\0\x06\x03OPS\x12MVT\nLH00/01.A.APR\n",
        EntryFault::BadField(13),
    ),
    (
        b"\x04\0\0\0\0\0\0\0\x06\x03OPS\x10MVT\nLH0/01.A.APR",
        EntryFault::BadField(13),
    ),
    (
        b"\x04\0\0\0\0\0\0\0\x06\x03OPS\x11MVT\nLH0/01.A.APR\n\0",
        EntryFault::TrailingBytes(31),
    ),
    (b"\x04\0\0\0\0\0\0\0\x07", EntryFault::BadField(9)),
    (
        b"\x04\0\0\0\0\0\0\0\x07\0\x02\0\0\0\x02\x94\x02\0\0",
        EntryFault::BadField(9),
    ),
    (
        b"\x04\0\0\0\0\0\0\0\x07\x0DABCDEFGHIJKLM\x02\0\0\0\x02\x94\x02\0\0",
        EntryFault::BadField(9),
    ),
    (
        b"\x04\0\0\0\0\0\0\0\x07\x03ops\x02\0\0\0\x02\x94\x02\0\0",
        EntryFault::BadField(9),
    ),
    (b"\x04\0\0\0\0\0\0\0\x07\x03OP", EntryFault::BadField(9)),
    (
        b"\x04\0\0\0\0\0\0\0\x07\x03OPS\x02\0\0",
        EntryFault::BadField(13),
    ),
    (
        b"\x04\0\0\0\0\0\0\0\x07\x03OPS\x02\0\0\0",
        EntryFault::BadField(17),
    ),
    (
        b"\x04\0\0\0\0\0\0\0\x07\x03OPS\x02\0\0\0\0",
        EntryFault::BadField(17),
    ),
    (
        b"\x04\0\0\0\0\0\0\0\x07\x03OPS\x02\0\0\0\x03",
        EntryFault::BadField(17),
    ),
    (
        b"\x04\0\0\0\0\0\0\0\x07\x03OPS\x02\0\0\0\x01",
        EntryFault::BadField(18),
    ),
    (
        b"\x04\0\0\0\0\0\0\0\x07\x03OPS\x02\0\0\0\x01\x01\x05",
        EntryFault::BadField(19),
    ),
    (
        b"\x04\0\0\0\0\0\0\0\x07\x03OPS\x02\0\0\0\x01\x01\x06\0",
        EntryFault::BadField(19),
    ),
    (
        b"\x04\0\0\0\0\0\0\0\x07\x03OPS\x02\0\0\0\x01\x01\x05\0\x62\x02\0",
        EntryFault::BadField(21),
    ),
    (
        b"\x04\0\0\0\0\0\0\0\x07\x03OPS\x02\0\0\0\x02\x94\x02\0",
        EntryFault::BadField(18),
    ),
    (
        b"\x04\0\0\0\0\0\0\0\x07\x03OPS\x02\0\0\0\x02\x94\x02\0\0\0",
        EntryFault::TrailingBytes(22),
    ),
    (b"\x04\0\0\0\0\0\0\0\x05\x02\x01\0", EntryFault::BadField(9)),
    (
        b"\x04\0\0\0\0\0\0\0\x05\x02\x01\0\0\0",
        EntryFault::TrailingBytes(13),
    ),
];

// Entries that named no desk for a message or a report: the estimate, part 1 of visit 2 on block,
// and visit 2 off block.
const FORMER_MESSAGE: &[u8] = b"\x04\0\0\0\0\0\0\0\x03\x22MVT\nLH123/27.DABCD.MUC\nEA0620 APR\n";

const FORMER_CAME: &[u8] = b"\x05\0\0\0\0\0\0\0\x04\x02\0\0\0\x01\x01\x05\0\x62\x02\0\0";

const FORMER_WENT: &[u8] = b"\x06\0\0\0\0\0\0\0\x04\x02\0\0\0\x02\x94\x02\0\0";

#[test]
fn the_first_fault_is_found_at_its_place(rt: HostRuntime) -> Result<(), Fail> {
    let airport = airport(rt.alloc())?;
    for (bytes, fault) in &FAULTS {
        let found = decode_entry(rt.alloc(), &airport, bytes).err();
        assert_eq!(rt; found, Some(*fault), "of {bytes:?}");
    }
    Ok(())
}

#[test]
fn messages_and_reports_that_name_no_desk_are_no_entries(rt: HostRuntime) -> Result<(), Fail> {
    let airport = airport(rt.alloc())?;
    for bytes in [FORMER_MESSAGE, FORMER_CAME, FORMER_WENT] {
        let found = decode_entry(rt.alloc(), &airport, bytes).err();
        assert_eq!(rt; found, Some(EntryFault::BadKind), "of {bytes:?}");
    }
    Ok(())
}

#[test]
fn former_entries_are_converted_to_those_of_no_desk(rt: HostRuntime) -> Result<(), Fail> {
    let airport = airport(rt.alloc())?;
    let entries = [
        (ADDED, ADDED),
        (PUT, PUT),
        (KEYED, KEYED),
        (EDITED, EDITED),
        (FORMER_MESSAGE, NO_DESKS_MESSAGE),
        (FORMER_CAME, NO_DESK_CAME),
        (FORMER_WENT, NO_DESK_WENT),
        (CANCELLED, CANCELLED),
    ];
    for (former, wanted) in entries {
        let Ok(converted) = convert_entry(rt.alloc(), &airport, former) else {
            return Err(Fail::new("an entry is converted"));
        };
        assert!(rt; converted.as_slice() == wanted, "of {former:?}");
    }
    Ok(())
}

#[test]
fn what_was_no_entry_is_not_converted(rt: HostRuntime) -> Result<(), Fail> {
    let airport = airport(rt.alloc())?;
    let faults: [(&[u8], EntryFault); 13] = [
        (b"", EntryFault::BadField(0)),
        (b"\0\0\0\0\0\0\0\x40\x09", EntryFault::BadField(0)),
        (b"\x01\0\0\0\0\0\0\0", EntryFault::BadField(8)),
        (b"\x01\0\0\0\0\0\0\0\0", EntryFault::BadKind),
        (b"\x01\0\0\0\0\0\0\0\x08", EntryFault::BadKind),
        (MESSAGE, EntryFault::BadKind),
        (NO_DESKS_MESSAGE, EntryFault::BadKind),
        (CAME, EntryFault::BadKind),
        (NO_DESK_WENT, EntryFault::BadKind),
        (b"\x04\0\0\0\0\0\0\0\x03", EntryFault::BadField(9)),
        (
            b"\x04\0\0\0\0\0\0\0\x03\x11MVT\nLH0/01.A.APR\n\0",
            EntryFault::TrailingBytes(27),
        ),
        (
            b"\x04\0\0\0\0\0\0\0\x04\x02\0\0\0\x01\x01\x06\0",
            EntryFault::BadField(15),
        ),
        (
            b"\x04\0\0\0\0\0\0\0\x04\x02\0\0\0\x02\x94\x02\0\0\0",
            EntryFault::TrailingBytes(18),
        ),
    ];
    for (bytes, fault) in faults {
        let found = convert_entry(rt.alloc(), &airport, bytes).err();
        assert_eq!(rt; found, Some(fault), "of {bytes:?}");
    }
    Ok(())
}
