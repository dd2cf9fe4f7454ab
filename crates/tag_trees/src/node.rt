// A node of a tag tree.
ghost use Rattle.std.specs.Prelude.{List, Bool, ◌≡◌, ◌+◌, ◌<◌, ◌≤◌, ◌++◌, ◌&&◌, [], length, max};
ghost use Rattle.std.specs.Prelude.{nat_lt, false, IfOk, IfErr};
ghost use Rattle.bit_stuffing.specs.Source.{Took};
ghost use Rattle.bit_stuffing.specs.Stuffing.{fault_of};

use bit_stuffing::{BitFault, BitIn, BitSink};

/// What a tree keeps of a node: its value, where the tree is written, and a lower bound, which is
/// the value itself where that is known to who reads.
#[derive(Clone, Copy)]
pub struct Node {
    pub value: u8,
    pub bound: u8,
    pub known: bool,
}

impl Node {
    ghost use Rattle.tag_trees.specs.TreeState.{AllowsValue};
    ghost use Rattle.tag_trees.specs.Inside.{IsStep, step_bits, RunsOut};

    /// A node of which nothing is known.
    pub fn unread(value: u8) -> Node
        ensures value { result.value ≡ value }
        ensures bound { result.bound ≡ 0 }
        ensures known { result.known ≡ false }
    {
        Node {
            value,
            bound: 0,
            known: false,
        }
    }

    /// Whether the value is known and below the threshold.
    pub fn is_below(self, threshold: u8) -> bool
        ensures { result ≡ (self.known && nat_lt self.bound threshold) }
    {
        self.known && self.bound < threshold
    }

    /// Writes the node up to a threshold, from a bound of its parent on, and returns what it keeps:
    /// a 0 for each step of the bound up to the value, and a 1 where the value is below the
    /// threshold.
    pub fn write<S: BitSink>(self, start: u8, threshold: u8, out: &mut S) -> Node
        requires threshold { threshold ≤ 32 }
        requires room { S.bit_count out.old + 100 ≤ 7000 }
        ensures value { result.value ≡ self.value }
        ensures step { IsStep (max self.bound start) threshold self.known result.bound result.known }
        ensures bits { (bits : List Bool) → S.StandsFor out.old bits →
            S.StandsFor out.new (bits ++ step_bits (max self.bound start) self.known result.bound
            result.known) }
        ensures count { S.bit_count out.new ≡ S.bit_count out.old
            + length (step_bits (max self.bound start) self.known result.bound result.known) }
        ensures few { S.bit_count out.new ≤ S.bit_count out.old + 33 }
        ensures allowed { AllowsValue self.known (max self.bound start) self.value →
            AllowsValue result.known result.bound self.value }
    {
        let from = self.bound.max(start);
        if self.known {
            return Node {
                bound: from,
                ..self
            };
        }
        let bound = self.value.max(from);
        if bound < threshold {
            out.put_number(u32::from(bound - from) + 1, 1);
            return Node {
                value: self.value,
                bound,
                known: true,
            };
        }
        let bound = threshold.max(from);
        out.put_number(u32::from(bound - from), 0);
        Node { bound, ..self }
    }

    /// Reads the node up to a threshold, from a bound of its parent on, and returns what it keeps.
    pub fn read(self, start: u8, threshold: u8, bits: &mut BitIn<'_>) -> Result<Node, BitFault>
        requires threshold { threshold ≤ 32 }
        ensures value { IfOk result (λ kept. kept.value ≡ self.value) }
        ensures step { IfOk result (λ kept. IsStep (max self.bound start) threshold self.known
            kept.bound kept.known) }
        ensures took { IfOk result (λ kept. Took bits.old
            (step_bits (max self.bound start) self.known kept.bound kept.known) bits.new) }
        ensures same { bits.new.bytes ≡ bits.old.bytes }
        ensures fault { IfErr result (λ fault. (fault ≡ fault_of bits.old.bytes)
            × (bits.new.ahead ≡ [])) }
        ensures ends { IfErr result (λ fault. RunsOut bits.old.ahead (max self.bound start)
            threshold self.known) }
    {
        let mut bound = self.bound.max(start);
        if self.known {
            return Ok(Node { bound, ..self });
        }
        while bound < threshold {
            if bits.take()? {
                return Ok(Node {
                    value: self.value,
                    bound,
                    known: true,
                });
            }
            bound += 1;
        }
        Ok(Node { bound, ..self })
    }
}
