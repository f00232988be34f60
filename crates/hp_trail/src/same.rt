//! Whether two values are the same.
ghost use Rattle.std.specs.Prelude.{◌≡◌, ◌≢◌, true, false};

use hp_model::answer::{Answer, NodeCount, Reply};
use hp_model::bytes::Bytes;
use hp_model::event::{PoolEvent, SlotEvent, TableEvent};
use hp_model::names::Names;

#[tactic(auto, using(crate::proofs::ListsSame::same_names, crate::proofs::ListsSame::other_names))]
fn same_names(a: &Names, b: &Names) -> bool
    ensures same { result ≡ true → a.now ≡ b.now }
    ensures other { result ≡ false → a.now ≢ b.now }
{
    *a == *b
}

pub(crate) fn same_table_event(a: TableEvent, b: TableEvent) -> bool
    ensures same { result ≡ true → a ≡ b }
    ensures other { result ≡ false → a ≢ b }
{
    a == b
}

pub(crate) fn same_pool_event(a: PoolEvent, b: PoolEvent) -> bool
    ensures same { result ≡ true → a ≡ b }
    ensures other { result ≡ false → a ≢ b }
{
    a == b
}

pub(crate) fn same_slot_event(a: &SlotEvent<Bytes>, b: &SlotEvent<Bytes>) -> bool
    ensures same { result ≡ true → a.now ≡ b.now }
    ensures other { result ≡ false → a.now ≢ b.now }
{
    *a == *b
}

fn same_rows(xs: &[NodeCount; 4], ys: &[NodeCount; 4]) -> bool
    ensures same { result ≡ true → xs.now ≡ ys.now }
    ensures other { result ≡ false → xs.now ≢ ys.now }
{
    *xs == *ys
}

fn same_answer(a: &Answer, b: &Answer) -> bool
    ensures same { result ≡ true → a.now ≡ b.now }
    ensures other { result ≡ false → a.now ≢ b.now }
{
    match (a, b) {
        (Answer::Names(x), Answer::Names(y)) => same_names(x, y),
        (Answer::PerNode { nodes: n, rows: xs }, Answer::PerNode { nodes: m, rows: ys }) => *n == *m
            && same_rows(xs, ys),
        _ => *a == *b,
    }
}

pub(crate) fn same_reply(a: &Reply, b: &Reply) -> bool
    ensures same { result ≡ true → a.now ≡ b.now }
    ensures other { result ≡ false → a.now ≢ b.now }
{
    match (a, b) {
        (Ok(x), Ok(y)) => same_answer(x, y),
        (Err(x), Err(y)) => *x == *y,
        _ => false,
    }
}
