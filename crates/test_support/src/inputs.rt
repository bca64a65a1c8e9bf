// The files and words that a run is given, and the room of its disk.
use apron_base::{Listed, Memory, ShelfFile, Word};
use journal_disk::Room;
use std::alloc::Global;

/// The airport file of the examples: thirteen stands on four frontages.
pub const AIRPORT: &str =
    r#"# The demo airport: thirteen stands on four frontages. N and S show clearances along a pier, 12 is a stand
# with two halves, and 14 and 15 exclude each other by a restriction.
frontage = [
  { name = "N", objects = [0] },
  { name = "S", objects = [0] },
  { name = "R", objects = [] },
  { name = "T", objects = [27500] },
]
stand = [
  { name = "N1", frontage = "N", centre = 4000, letter = "C", buffer = 10 },
  { name = "N2", frontage = "N", centre = 8030, letter = "C", buffer = 10 },
  { name = "N3", frontage = "N", centre = 12059, letter = "E", buffer = 10 },
  { name = "S1", frontage = "S", centre = 6000, letter = "C", buffer = 10 },
  { name = "S2", frontage = "S", centre = 8890, letter = "C", buffer = 10 },
  { name = "S3", frontage = "S", centre = 11779, letter = "E", buffer = 10 },
  { name = "S4", frontage = "S", centre = 14670, letter = "C", buffer = 10 },
  { name = "S5", frontage = "S", centre = 17559, letter = "C", buffer = 10 },
  { name = "12", frontage = "R", centre = 10000, letter = "E", buffer = 10 },
  { name = "12L", frontage = "R", centre = 8400, letter = "C", buffer = 10, half_of = "12" },
  { name = "12R", frontage = "R", centre = 11600, letter = "C", buffer = 10, half_of = "12" },
  { name = "14", frontage = "T", centre = 10000, letter = "F", buffer = 10 },
  { name = "15", frontage = "T", centre = 25000, letter = "E", buffer = 10 },
]
pair = [ { a = "14", la = "E", b = "15", lb = "C" } ]

[airport]
station = "APR"
first_day = "2026-03-27"
days = 3
taxi_in = 5
tow = 20
"#;

/// The type file of the examples: seven types.
pub const TYPES: &str = "type,span,least
A320,3580,40
B738,3579,40
B77W,6480,60
AT76,2705,25
B190,1767,20
A388,7975,90
X360,3600,40
";

/// Requests of 123 and 129 bytes: a visit is added, and put on a stand.
pub const FIRST: &[u8] =
    b"POST /visits HTTP/1.1\r\nContent-Length: 78\r\n\r\n{\"name\":\"V1\",\"type\":\"A320\",\"class\":3,\"on\":600,\"off\":660,\"arr\":null,\"dep\":null}POST /commits HTTP/1.1\r\nContent-Length: 83\r\n\r\n{\"desk\":\"D\",\"draft\":1,\"base\":1,\"edits\":[{\"put\":{\"visit\":1,\"part\":1,\"stand\":\"N1\"}}]}";

/// The reply to the first of them.
pub const ADDED: &[u8] =
    b"HTTP/1.1 200 OK\r\nContent-Type: application/json\r\nContent-Length: 23\r\nX-Version: 1\r\n\r\n{\"version\":1,\"visit\":1}";

/// The replies to both.
pub const STANDS: &[u8] =
    b"HTTP/1.1 200 OK\r\nContent-Type: application/json\r\nContent-Length: 23\r\nX-Version: 1\r\n\r\n{\"version\":1,\"visit\":1}HTTP/1.1 200 OK\r\nContent-Type: application/json\r\nContent-Length: 13\r\nX-Version: 2\r\n\r\n{\"version\":2}";

/// Room on a disk for a session of some thousand commits.
pub const ROOM: Room = Room {
    bytes: 200_000,
    written: 200_000,
    calls: 20_000,
};

/// The words of a text that has spaces between them. `Err` if there is no memory.
pub fn words(alloc: Global, texts: &str) -> Result<Vec<Word>, Memory> {
    let mut words = Vec::new(alloc);
    for text in texts.split_ascii_whitespace() {
        words.push(Word::new(alloc, text)?)?;
    }
    Ok(words)
}

/// A file of this name. `Err` if there is no memory.
pub fn shelf_file(alloc: Global, name: &str, bytes: &[u8]) -> Result<ShelfFile, Memory> {
    Ok(ShelfFile {
        name: Word::new(alloc, name)?,
        bytes: Listed::from_vec(bytes.to_vec(alloc)?),
    })
}
