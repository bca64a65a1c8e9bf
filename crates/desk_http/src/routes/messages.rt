// What the body of POST /mvt asks.
ghost use Rattle.std.specs.Prelude.{◌≡◌, IfOk};
ghost use Rattle.apron_rules.specs.declared.parts.AirportParts.{AirportParts};
ghost use Rattle.history_core.specs.History.{IsWhatOf};
ghost use Rattle.desk_http.specs.MessagesRoute.{message_asked as message_asked_lem};

use apron_base::Name;
use desk_asks::{Command, DeskMessage, What};
use desk_words::early::EarlyReply;
use mvt_grammar::read_mvt;

/// What the desk asks with this body, which is a text and no JSON. It takes no memory.
pub(crate) fn message_asked(desk: Name, body: &[u8]) -> Result<What, EarlyReply>
    ensures asked { result ≡ message_asked_lem desk body.now }
    ensures valid { IfOk result (λ what. (airport : AirportParts) → IsWhatOf airport what) }
{
    match read_mvt(body) {
        Ok(message) => Ok(What::Change(Command::Message(DeskMessage { desk, message }))),
        Err(fault) => Err(EarlyReply::NotMvt(fault)),
    }
}
