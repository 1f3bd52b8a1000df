//! What the header fields of a head say of its host, of its body and of the connection.
ghost use Rattle.std.specs.Prelude.{◌≡◌, All, length, map, if◌then◌else◌};
ghost use Rattle.httparse.specs.Spans.{IsHeaderWithin, header_bytes};
ghost use Rattle.http_front.specs.Fields as spec;

use crate::connection::lists_close;
use httparse::spans::HeaderSpan;

/// What the `Content-Length` fields of a head come to.
#[derive(Clone, Copy, Debug, PartialEq, Eq)]
pub(crate) enum BodyLength {
    Absent,
    /// A length past the limit is given as the limit and one.
    Given(u32),
    /// More than one, or not a number.
    Faulty,
}

/// What the fields say that decide how a head is answered.
#[derive(Clone, Copy, Debug, PartialEq, Eq)]
pub(crate) struct Fields {
    /// How many `Host` fields there are, counted up to two.
    pub hosts: u8,
    pub length: BodyLength,
    /// There is a `Transfer-Encoding`.
    pub coded: bool,
    /// A `Connection` field asks to end the connection.
    pub close: bool,
}

fn same_name(a: &[u8], b: &[u8]) -> bool
    ensures { result ≡ spec.same_name a.now b.now }
{
    a.eq_ignore_ascii_case(b)
}

const TOO_LONG: u32 = 1_048_577;

fn parse_length(value: &[u8]) -> Option<u32>
    ensures { result ≡ (if spec.is_digits value.now then Some (spec.capped_number value.now) else None) }
{
    if value.is_empty() {
        return None;
    }
    let mut n: u32 = 0;
    for b in value {
        if !b.is_ascii_digit() {
            return None;
        }
        n = (n * 10 + u32::from(*b - b'0')).min(TOO_LONG);
    }
    Some(n)
}

impl BodyLength {
    fn with(self, value: &[u8]) -> BodyLength
        ensures { result ≡ spec.with_value self value.now }
    {
        match (self, parse_length(value)) {
            (BodyLength::Absent, Some(length)) => BodyLength::Given(length),
            _ => BodyLength::Faulty,
        }
    }
}

impl Fields {
    const NONE: Fields = Fields {
        hosts: 0,
        length: BodyLength::Absent,
        coded: false,
        close: false,
    };

    fn hosts_with(self, name: &[u8]) -> u8
        ensures { result ≡ spec.hosts_with self.hosts name.now }
    {
        if same_name(name, b"host") {
            self.hosts.saturating_add(1).min(2)
        } else {
            self.hosts
        }
    }

    fn length_with(self, name: &[u8], value: &[u8]) -> BodyLength
        ensures { result ≡ spec.length_with self.length name.now value.now }
    {
        if same_name(name, b"content-length") {
            self.length.with(value)
        } else {
            self.length
        }
    }

    fn with(self, name: &[u8], value: &[u8]) -> Fields
        ensures { result ≡ spec.fields_with self name.now value.now }
    {
        Fields {
            hosts: self.hosts_with(name),
            length: self.length_with(name, value),
            coded: self.coded || same_name(name, b"transfer-encoding"),
            close: self.close || same_name(name, b"connection") && lists_close(value),
        }
    }

    /// What the headers say that stand at these places of `buf`.
    pub fn from_spans(buf: &[u8], headers: &[HeaderSpan]) -> Fields
        requires { All (IsHeaderWithin (length buf.now)) headers.now }
        ensures { result ≡ spec.fields_of (map (header_bytes buf.now) headers.now) }
    {
        let mut fields = Fields::NONE;
        for header in headers {
            fields = fields.with(header.name.of(buf), header.value.of(buf));
        }
        fields
    }
}
