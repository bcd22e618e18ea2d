// The label of an object.
ghost use Rattle.std.specs.Prelude.{◌≡◌, nat_eq, MatchResult, IsTrue, false};
ghost use Rattle.std.proofs.Common.{rules};
ghost use Rattle.std.specs.Cmp.{partial_order_from_own_ties};
ghost use Rattle.std.specs.Cmp.Lexicographic.{pointwise, slice_cmp};
ghost use Rattle.std.specs.Cmp.Rules.{comparing};
ghost use Rattle.std.specs.Ordering.{nat_cmp, as_partial_cmp};
ghost use Rattle.std.specs.List.{list_all};
ghost use Rattle.pond_base.specs.Label as spec;

use crate::limits::MOST_LABEL_BYTES;
use std::cmp::Ordering;
use std::marker::Model;

/// Bytes that are no label.
#[derive(Clone, Copy, Debug, PartialEq, Eq)]
pub struct BadLabel;

/// The label of an object: 1 to 32 bytes, each of `a` to `z`, `0` to `9` or `_`. Contracts see the
/// list of these bytes, by which labels are compared.
#[derive(Clone, Copy, Debug)]
pub struct Label {
    // The bytes of the label, and zeros behind them.
    room: [u8; 32],
    count: usize,
}

impl Model for Label {
    ghost use Rattle.std.specs.Prelude.{List, ℕ, take, length};
    ghost use Rattle.std.proofs.Common.{◌∙◌, ap};
    ghost use Rattle.pond_base.specs.Padded.{IsPadded, padded, padded-take, length-take-padded};

    ghost Value = { List ℕ };

    ghost view = { λ label. take label.count label.room };

    ghost invariant = { λ label. IsPadded label.room label.count };

    ghost inverse = { λ bytes. record { room = padded bytes; count = length bytes } };

    ghost inverse_ok = { λ label is.
        ap (λ room. record { room = room; count = length (take label.count label.room) }) (padded-take label.room label.count is)
        ∙ ap (λ count. record { room = label.room; count = count }) (length-take-padded label.room label.count is) };
}

impl Label {
    /// The label that bytes spell, and `BadLabel` exactly where they are no label.
    pub fn read(bytes: &[u8]) -> Result<Label, BadLabel>
        ensures { MatchResult result (λ label. IsTrue (spec.is_label bytes.now) × (label ≡ bytes.now)) (λ _. spec.is_label bytes.now ≡ false) }
    {
        if !is_label(bytes) {
            return Err(BadLabel);
        }
        let count = bytes.len();
        let mut room = [0; 32];
        room[..count].copy_from_slice(bytes);
        Ok(Label { room, count })
    }

    /// The bytes of the label, which are a label's.
    pub fn bytes(&self) -> &[u8]
        ensures value { result.now ≡ self.now }
        ensures label { IsTrue (spec.is_label self.now) }
    {
        &self.room[..self.count]
    }
}

impl PartialEq for Label {
    ghost eq = { pointwise nat_eq };

    ghost laws = { Prim.search (comparing, rules) };

    fn eq(&self, other: &Label) -> bool {
        self.bytes() == other.bytes()
    }
}

impl Eq for Label {
    ghost laws = { Prim.search (comparing, rules) };
}

impl Ord for Label {
    ghost cmp = { slice_cmp nat_cmp };

    ghost total = { Prim.search (comparing, rules) };

    ghost matches_partial_cmp = { Prim.search (comparing, rules) };

    ghost matches_eq = { Prim.search (comparing, rules) };

    fn cmp(&self, other: &Label) -> Ordering {
        self.bytes().cmp(other.bytes())
    }
}

impl PartialOrd for Label {
    ghost partial_cmp = { as_partial_cmp (slice_cmp nat_cmp) };

    ghost laws = { partial_order_from_own_ties (Prim.search (comparing, rules)) (Prim.search (comparing, rules)) };

    fn partial_cmp(&self, other: &Label) -> Option<Ordering> {
        Some(self.cmp(other))
    }
}

fn is_label(bytes: &[u8]) -> bool
    ensures { result ≡ spec.is_label bytes.now }
{
    !bytes.is_empty() && bytes.len() <= MOST_LABEL_BYTES && has_label_bytes(bytes)
}

fn has_label_bytes(bytes: &[u8]) -> bool
    ensures { result ≡ list_all spec.is_label_byte bytes.now }
{
    bytes.iter().all(|byte| is_label_byte(*byte))
}

fn is_label_byte(byte: u8) -> bool
    ensures { result ≡ spec.is_label_byte byte }
{
    matches!(byte, b'a'..=b'z' | b'0'..=b'9' | b'_')
}
