// The replies to feeds, byte for byte.
ghost use Rattle.std.specs.Prelude.{◌≡◌, ◌++◌, IfOk, OnOk};
ghost use Rattle.serde_json.specs.Written.{compact_text};
ghost use Rattle.watch_list.specs.FeedReplies.{fed_code, fed_data, fed_text, note_data, notes_data};

use crate::note::Note;
use apron_base::{Listed, Memory};
use apron_rules::{Airport, AirportParts};
use desk_words::fault_objects::push_refused;
use desk_words::json_text::Json;
use desk_words::push_object;
use desk_words::replies::{JSON, text_of};
use http::StatusCode;
use std::alloc::Global;

// The greatest bytes of a note in a list, with its comma.
const MOST_NOTE: usize = 176;

// More than the bytes of any body but its notes.
const MOST_OTHER: usize = 64;

/// What a feed comes to.
#[derive(Debug, Drop)]
pub(crate) enum FeedOutcome {
    /// A later version or entry was seen than the plan has.
    Ahead,
    /// No watch has the name.
    NoWatch,
    /// The notes that the watch is fed with.
    Notes { notes: Listed<Note> },
}

/// The reply's whole text, head and body, for a plan of this airport and version. The only error is
/// a lack of memory.
pub(crate) fn fed_bytes(
    alloc: Global,
    airport: &Airport,
    version: u32,
    fed: &FeedOutcome,
) -> Result<Listed<u8>, Memory>
    ensures text { IfOk result (λ bytes. bytes ≡ fed_text airport.now version fed.now) }
{
    let body = fed_body(alloc, airport.parts(), version, fed)?;
    text_of(alloc, fed_code(fed), JSON, version, body.as_slice())
}

fn fed_code(fed: &FeedOutcome) -> StatusCode
    ensures is { result ≡ fed_code fed.now }
{
    match fed {
        FeedOutcome::Ahead => StatusCode::CONFLICT,
        FeedOutcome::NoWatch => StatusCode::NOT_FOUND,
        FeedOutcome::Notes { .. } => StatusCode::OK,
    }
}

fn fed_body(
    alloc: Global,
    airport: &AirportParts,
    version: u32,
    fed: &FeedOutcome,
) -> Result<Vec<u8>, Memory>
    ensures text { IfOk result
        (λ body. body.items ≡ compact_text (fed_data airport.now version fed.now)) }
{
    let mut body = Vec::with_capacity(alloc, room_for(fed))?;
    push_fed(&mut body, airport, version, fed)?;
    Ok(body)
}

// Bytes in which each body is written without asking for memory again.
fn room_for(fed: &FeedOutcome) -> usize {
    let listed = match fed {
        FeedOutcome::Notes { notes } => notes.as_slice().len().saturating_mul(MOST_NOTE),
        FeedOutcome::Ahead | FeedOutcome::NoWatch => 0,
    };
    listed.saturating_add(MOST_OTHER)
}

fn push_fed(
    bytes: &mut Vec<u8>,
    airport: &AirportParts,
    version: u32,
    fed: &FeedOutcome,
) -> Result<(), Memory>
    ensures text { OnOk result
        (bytes.new.items ≡ bytes.old.items ++ compact_text (fed_data airport.now version fed.now)) }
{
    match fed {
        FeedOutcome::Ahead => push_refused(bytes, "ahead", version),
        FeedOutcome::NoWatch => push_refused(bytes, "watch", version),
        FeedOutcome::Notes { notes } => push_notes(bytes, airport, notes, version),
    }
}

#[tactic(auto, unfolding(serde_json::proofs::OnLiterals::serde_json_on_literals))]
fn push_notes(
    bytes: &mut Vec<u8>,
    airport: &AirportParts,
    notes: &Listed<Note>,
    version: u32,
) -> Result<(), Memory>
    ensures text { OnOk result
        (bytes.new.items
        ≡ bytes.old.items ++ compact_text (notes_data airport.now notes.now version)) }
{
    push_object!(bytes, airport, { "bumps": *notes, "version": version })
}

#[tactic(auto, unfolding(serde_json::proofs::OnLiterals::serde_json_on_literals))]
impl Json<AirportParts> for Note {
    ghost json = { λ airport note. note_data airport note };

    fn push(&self, bytes: &mut Vec<u8>, airport: &AirportParts) -> Result<(), Memory> {
        push_object!(bytes, airport, {
            "blocker": self.blocker,
            "class": self.class,
            "entry": self.entry,
            "minute": self.minute,
            "part": self.part,
            "rule": self.rule,
            "stand": self.stand,
        })
    }
}
