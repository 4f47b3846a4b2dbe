// The fields of a record's body: numbers highest byte first, then what they make.
ghost use Rattle.std.specs.Prelude.{◌≡◌, ◌+◌, ◌≤◌, length};
ghost use Rattle.file.specs.Records.{flow_of, number_at, path_of, port_of, row_of};

use draft::{Flow, Mask, Path, Port, Row};
use std::array;

// Here and below fields are taken by their places, which the format fixes.

// Four bytes from `at` on, the highest first.
pub(crate) fn number(body: &[u8], at: usize) -> u32
    requires { at + 4 ≤ length body.now }
    ensures { result ≡ number_at body.now at }
{
    u32::from_be_bytes(array::from_fn(|k| body[at + k]))
}

// The port of a P record.
pub(crate) fn port(body: &[u8]) -> Port
    requires { 16 ≤ length body.now }
    ensures { result ≡ port_of body.now }
{
    Port {
        rate: number(body, 0),
        latency: number(body, 4),
        stay: number(body, 8),
        shortest: number(body, 12),
    }
}

fn path(body: &[u8]) -> Path
    requires { 26 ≤ length body.now }
    ensures { result ≡ path_of body.now }
{
    Path {
        hops: body[16],
        ports: array::from_fn(|hop| body[18 + hop]),
    }
}

// The flow of an F record.
pub(crate) fn flow(body: &[u8]) -> Flow
    requires { 26 ≤ length body.now }
    ensures { result ≡ flow_of body.now }
{
    Flow {
        rate: number(body, 0),
        burst: number(body, 4),
        shortest: number(body, 8),
        longest: number(body, 12),
        path: path(body),
        mask: Mask { bits: body[17] },
    }
}

// The cells of a B record, which follow its flow byte.
pub(crate) fn row(body: &[u8]) -> Row
    requires { 33 ≤ length body.now }
    ensures { result ≡ row_of body.now }
{
    Row {
        cells: array::from_fn(|hop| number(body, 1 + 4 * hop)),
    }
}
