// What holds of every stream.
ghost use Rattle.http_framing.specs.Laws.{HaveOneReading, StayWithMore, RefusalsStay};

/// A stream has one list of requests and one ending, with one exception: a stream that ends inside
/// a head that no bytes complete is cut or malformed.
pub fn requests_have_one_reading()
    ensures one { HaveOneReading }
{}

/// Bytes that follow change no request, and no refusal.
pub fn more_bytes_change_no_request()
    ensures requests { StayWithMore }
    ensures refusals { RefusalsStay }
{}
