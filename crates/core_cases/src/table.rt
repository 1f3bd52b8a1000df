//! A recording of twenty items, made in code.

use asp_record::{Item, Recording};
use case_files::{Answer, CaseStop};
use vb_value::List;
use word_runs::bytes;

/// What session keys are made from.
const SEED: [u8; 32] = [
    0x07, 0x0f, 0x17, 0x1f, 0x27, 0x2f, 0x37, 0x3f, 0x47, 0x4f, 0x57, 0x5f, 0x67, 0x6f, 0x77, 0x7f,
    0x87, 0x8f, 0x97, 0x9f, 0xa7, 0xaf, 0xb7, 0xbf, 0xc7, 0xcf, 0xd7, 0xdf, 0xe7, 0xef, 0xf7, 0xff,
];

/// A client, a moment, and the bytes of a request; without bytes time goes on to the moment.
const ITEMS: &[(u32, u64, &[u8])] = &[
    (0, 3, b""),
    (1, 3, b"GET / HTTP/1.1\r\nHost: x\r\n\r\n"),
    (2, 3, b"GET / HTTP/1.1\r\nHost: x\r\n\r\n"),
    (0, 4, b""),
    (
        1,
        10,
        b"POST /f HTTP/1.1\r\nHost: x\r\nContent-Length: 5\r\n\r\n\0\xff\r\n\x7f",
    ),
    (
        0,
        10,
        b"GET /c HTTP/1.1\r\nHost: x\r\nCookie: a=1; b=2\r\n\r\n",
    ),
    (3, 10, b"HEAD / HTTP/1.0\r\n\r\n"),
    (0, 11, b""),
    (0, 11, b""),
    (2, 12, b"GET /n HTTP/1.1\nHost: x\n\n"),
    (4_294_967_295, 12, b"GET / HTTP/1.1\r\nHost: x\r\n\r\n"),
    (
        1,
        1_700_000_000,
        b"POST /f HTTP/1.1\r\nHost: x\r\nContent-Length: 12\r\n\r\nend\ntick 99\n",
    ),
    (
        5,
        1_700_000_000,
        b"PUT /u HTTP/1.1\r\nHost: x\r\nContent-Length: 3\r\n\r\n\xe2\x82\xac",
    ),
    (0, 1_700_000_001, b""),
    (
        5,
        1_700_000_002,
        b"GET http://h/p?q HTTP/1.1\r\nHost: h\r\n\r\n",
    ),
    (6, 1_700_000_003, b"\r\nGET / HTTP/1.1\r\nHost: x\r\n\r\n"),
    (
        6,
        1_700_000_003,
        b"GET / HTTP/1.1\r\nHost: x\r\nA: \xff\r\n\r\n",
    ),
    (0, 253_402_300_799, b""),
    (1, 253_402_300_799, b"GET / HTTP/1.1\r\nHost: x\r\n\r\n"),
    (
        7,
        253_402_300_799,
        b"GET /end HTTP/1.1\r\nHost: x\r\nConnection: close\r\n\r\n",
    ),
];

fn item(out: &mut Answer, client: u32, moment: u64, sent: &[u8]) -> Item {
    if sent.is_empty() {
        return Item::Tick { moment };
    }
    Item::Request {
        client,
        moment,
        bytes: bytes(out, sent),
    }
}

/// The recording that the table has.
pub fn recording(out: &mut Answer) -> Recording {
    let mut items = List::new(out.alloc());
    for (client, moment, sent) in ITEMS.iter() {
        if items.push(item(out, *client, *moment, sent)).is_err() {
            out.stop(CaseStop::Memory);
        }
    }
    Recording {
        seed: SEED,
        strict: false,
        items,
    }
}
