// Reading from the source.
ghost use Rattle.http_framing.specs.Requests.{IsPartial};
ghost use Rattle.desk_http.specs.Serving.{TakesMore};

use apron_base::{Failed, Outcome, Source};
use http_framing::{Incoming, MAX_PIECE, StreamEnd};

/// Takes one piece more. `Err` says how the session ends.
pub(crate) fn take_more<S: Source>(source: &mut S, incoming: &mut Incoming) -> Result<(), Outcome>
    requires partial { IsPartial incoming.old }
    ensures takes { TakesMore (S.state source.old) (S.state source.new)
        incoming.old incoming.new result }
{
    let mut piece = [0; MAX_PIECE];
    match source.read(&mut piece) {
        Ok(0) => match incoming.end() {
            StreamEnd::Ended => Err(Outcome::Ended),
            StreamEnd::Cut => Err(Outcome::Cut),
        },
        Ok(count) => {
            incoming.push(&piece[..count]);
            Ok(())
        }
        Err(Failed) => Err(Outcome::ReadFault),
    }
}
