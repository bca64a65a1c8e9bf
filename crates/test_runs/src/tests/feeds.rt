// Feeds of a run that takes no watches: one that is ahead of the plan is so first, and each other one
// is of no watch. The replies are written by hand from their format.
use super::runs::{DEMO, Run};
use std::test::Fail;

// A visit is added, and feeds are asked for.
const ASKED: &[u8] =
    b"POST /visits HTTP/1.1\r\nContent-Length: 78\r\n\r\n{\"name\":\"V1\",\"type\":\"A320\",\"class\":3,\"on\":600,\"off\":660,\"arr\":null,\"dep\":null}GET /feeds/ALL/0 HTTP/1.1\r\nContent-Length: 0\r\n\r\nGET /feeds/HIGH/1 HTTP/1.1\r\nContent-Length: 0\r\n\r\nGET /feeds/ALL/2 HTTP/1.1\r\nContent-Length: 0\r\n\r\nGET /feeds/all/0 HTTP/1.1\r\nContent-Length: 0\r\n\r\nPOST /feeds/ALL/0 HTTP/1.1\r\nContent-Length: 0\r\n\r\nGET /version HTTP/1.1\r\nContent-Length: 0\r\n\r\n";

// The replies.
const REPLIES: &[u8] =
    b"HTTP/1.1 200 OK\r\nContent-Type: application/json\r\nContent-Length: 23\r\nX-Version: 1\r\n\r\n{\"version\":1,\"visit\":1}HTTP/1.1 404 Not Found\r\nContent-Type: application/json\r\nContent-Length: 29\r\nX-Version: 1\r\n\r\n{\"error\":\"watch\",\"version\":1}HTTP/1.1 404 Not Found\r\nContent-Type: application/json\r\nContent-Length: 29\r\nX-Version: 1\r\n\r\n{\"error\":\"watch\",\"version\":1}HTTP/1.1 409 Conflict\r\nContent-Type: application/json\r\nContent-Length: 29\r\nX-Version: 1\r\n\r\n{\"error\":\"ahead\",\"version\":1}HTTP/1.1 404 Not Found\r\nContent-Type: application/json\r\nContent-Length: 17\r\n\r\n{\"error\":\"route\"}HTTP/1.1 405 Method Not Allowed\r\nContent-Type: application/json\r\nContent-Length: 18\r\nAllow: GET\r\n\r\n{\"error\":\"method\"}HTTP/1.1 200 OK\r\nContent-Type: application/json\r\nContent-Length: 13\r\nX-Version: 1\r\n\r\n{\"version\":1}";

#[test]
fn without_watches_a_feed_that_is_not_ahead_is_of_no_watch(rt: HostRuntime) -> Result<(), Fail> {
    let run = Run {
        input: ASKED,
        ..DEMO
    };
    run.gives(rt.alloc(), &"no watch", REPLIES, 0)
}
