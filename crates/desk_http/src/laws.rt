// What holds of every session without feeds.
ghost use Rattle.desk_http.specs.Complete.{SessionsAreComplete};

use crate::DeskPort;

/// A session without feeds that nothing hinders answers each request of its input, a million at
/// most, and comes to its end.
pub fn sessions_are_complete<P: DeskPort>()
    ensures complete { SessionsAreComplete P.asks }
{}
