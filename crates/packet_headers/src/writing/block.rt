// Writing a block.
ghost use Rattle.std.specs.Prelude.{◌≡◌, ◌+◌, ◌-◌, ◌<◌, ◌≤◌, ◌^◌, [], ◌++◌, List, Bool, ℕ, not};
ghost use Rattle.std.specs.Prelude.{◌&&◌, true, false, IsTrue};
ghost use Rattle.bit_stuffing.specs.Bits.{number};
ghost use Rattle.packet_headers.specs.Written.{CanWriteEntry};
ghost use Rattle.packet_headers.specs.InsideWriting.{inner_node_at, inclusion_list};
ghost use Rattle.packet_headers.specs.InsideWriting.{zero_plane_list, mark_of, entry_list, Marked};
ghost use Rattle.packet_headers.specs.InsideWriting.{MarkedIf};

use crate::entry::Entry;
use crate::writing::codeword::{Codeword, joined, numbers_codeword};
use crate::writing::inner_nodes::{InnerNode, Marks};
use bit_stuffing::BitSink;

/// Which nodes above the leaves have been written: in the inclusion tree up to 1, and in the zero
/// plane tree beyond their values.
#[derive(Clone, Copy)]
pub struct BandMarks {
    pub inclusion: Marks,
    pub zero_planes: Marks,
}

/// The inclusion bits of a block that isn't included.
fn left_out_codeword(
    inclusion: &mut Marks,
    quarter: usize,
    top: InnerNode,
    middle: InnerNode,
) -> Codeword
    requires quarter { quarter < 4 }
    requires order { IsTrue (mark_of inclusion.old quarter) → IsTrue inclusion.old.top }
    ensures bits { number result.width result.value ≡ inclusion_list inclusion.old.top top.included
        (mark_of inclusion.old quarter) middle.included false }
    ensures fits { result.value < 2 ^ result.width }
    ensures few { result.width ≤ 3 }
    ensures marked { Marked inclusion.old quarter inclusion.new }
{
    if inclusion.middle[quarter] {
        return Codeword::none().with_bit_if(middle.included, false);
    }
    let first = inclusion.mark_top();
    inclusion.middle[quarter] = true;
    Codeword::none()
        .with_bit_if(first, top.included)
        .with_bit_if(top.included, middle.included)
        .with_bit_if(middle.included, false)
}

/// These bits, and after them those of an included block in the zero plane tree, where the node
/// above its quarter isn't written.
fn zero_plane_codeword(
    bits: Codeword,
    marks: &mut Marks,
    quarter: usize,
    top: u8,
    middle: u8,
    zero_planes: u8,
) -> Codeword
    requires quarter { quarter < 4 }
    requires fresh { mark_of marks.old quarter ≡ false }
    requires top { top ≤ middle }
    requires middle { middle ≤ zero_planes }
    requires few { zero_planes < 20 }
    requires room { bits.width ≤ 3 }
    requires fits { bits.value < 2 ^ bits.width }
    ensures bits { number result.width result.value ≡ number bits.width bits.value
        ++ zero_plane_list marks.old.top top (mark_of marks.old quarter) middle zero_planes }
    ensures fits { result.value < 2 ^ result.width }
    ensures few { result.width ≤ 25 }
    ensures marked { Marked marks.old quarter marks.new }
{
    let first = marks.mark_top();
    marks.middle[quarter] = true;
    bits.with_zeros_if(first, top)
        .with_zeros_if(true, middle - top)
        .with_zeros_if(true, zero_planes - middle)
}

/// Marks the nodes above an included block in the inclusion tree, and returns its bits: a 1 for
/// each that wasn't marked, and for the block itself.
#[inline]
fn inclusion_codeword(inclusion: &mut Marks, quarter: usize) -> Codeword
    requires quarter { quarter < 4 }
    ensures bits { number result.width result.value ≡ inclusion_list inclusion.old.top true
        (mark_of inclusion.old quarter) true true }
    ensures fits { result.value < 2 ^ result.width }
    ensures few { result.width ≤ 3 }
    ensures marked { Marked inclusion.old quarter inclusion.new }
{
    let marked = u32::from(inclusion.top) + u32::from(inclusion.middle[quarter]);
    inclusion.top = true;
    inclusion.middle[quarter] = true;
    Codeword::ones(3 - marked)
}

/// The bits of an included block in both trees. Above a leaf that is written in the zero plane tree
/// all nodes are written in both.
#[inline]
fn included_codeword(
    marks: &mut BandMarks,
    quarter: usize,
    top: u8,
    middle: u8,
    zero_planes: u8,
) -> Codeword
    requires quarter { quarter < 4 }
    requires inclusion { IsTrue (mark_of marks.old.inclusion quarter) →
        IsTrue marks.old.inclusion.top }
    requires zero_planes { IsTrue (mark_of marks.old.zero_planes quarter) →
        IsTrue marks.old.zero_planes.top }
    requires seen { IsTrue (mark_of marks.old.zero_planes quarter) →
        IsTrue (mark_of marks.old.inclusion quarter) }
    requires top { top ≤ middle }
    requires middle { middle ≤ zero_planes }
    requires few { zero_planes < 20 }
    ensures bits { number result.width result.value ≡ inclusion_list marks.old.inclusion.top true
        (mark_of marks.old.inclusion quarter) true true
        ++ zero_plane_list marks.old.zero_planes.top top (mark_of marks.old.zero_planes quarter)
        middle zero_planes }
    ensures fits { result.value < 2 ^ result.width }
    ensures few { result.width ≤ 25 }
    ensures inclusion { Marked marks.old.inclusion quarter marks.new.inclusion }
    ensures zero_planes { Marked marks.old.zero_planes quarter marks.new.zero_planes }
{
    if marks.zero_planes.middle[quarter] {
        return Codeword::one_and_zeros(zero_planes - middle);
    }
    let ones = inclusion_codeword(&mut marks.inclusion, quarter);
    zero_plane_codeword(
        ones,
        &mut marks.zero_planes,
        quarter,
        top,
        middle,
        zero_planes,
    )
}

/// Puts a codeword and another after it, at once where they are few bits.
#[inline]
fn put_both<S: BitSink>(first: Codeword, last: Codeword, out: &mut S)
    requires first { first.value < 2 ^ first.width }
    requires last { last.value < 2 ^ last.width }
    requires first_few { first.width ≤ 25 }
    requires last_few { last.width ≤ 45 }
    requires room { S.bit_count out.old + 100 ≤ 7000 }
    ensures bits { (bits : List Bool) → S.StandsFor out.old bits →
        S.StandsFor out.new (bits ++ (number first.width first.value
        ++ number last.width last.value)) }
    ensures count { S.bit_count out.new ≡ S.bit_count out.old + (first.width + last.width) }
{
    if first.width + last.width <= 50 {
        let both = joined(first, last);
        out.put_number(both.width, both.value);
        return;
    }
    out.put_number(first.width, first.value);
    out.put_number(last.width, last.value);
}

/// Puts a block's bits (ISO/IEC 15444-1, B.10.4 to B.10.7), in a band of at most 20 magnitude bit
/// planes. Above it are nodes of these least zero planes.
#[inline]
pub fn put_block<S: BitSink>(
    marks: &mut BandMarks,
    quarter: usize,
    top: u8,
    middle: u8,
    planes: u8,
    entry: &Entry,
    out: &mut S,
)
    requires quarter { quarter < 4 }
    requires inclusion { IsTrue (mark_of marks.old.inclusion quarter) →
        IsTrue marks.old.inclusion.top }
    requires zero_planes { IsTrue (mark_of marks.old.zero_planes quarter) →
        IsTrue marks.old.zero_planes.top }
    requires seen { IsTrue (mark_of marks.old.zero_planes quarter) →
        IsTrue (mark_of marks.old.inclusion quarter) }
    requires planes { planes ≤ 20 }
    requires entry { CanWriteEntry planes entry.now }
    requires top { top ≤ middle }
    requires middle { IsTrue entry.now.included → middle ≤ entry.now.zero_planes }
    requires room { S.bit_count out.old + 100 ≤ 7000 }
    ensures bits { (bits : List Bool) → S.StandsFor out.old bits →
        S.StandsFor out.new (bits ++ entry_list marks.old.inclusion marks.old.zero_planes quarter
        (inner_node_at planes top) (inner_node_at planes middle) entry.now) }
    ensures few { S.bit_count out.new ≤ S.bit_count out.old + 70 }
    ensures inclusion { Marked marks.old.inclusion quarter marks.new.inclusion }
    ensures zero_planes { MarkedIf entry.now.included marks.old.zero_planes quarter
        marks.new.zero_planes }
{
    if !entry.included {
        let inclusion = left_out_codeword(
            &mut marks.inclusion,
            quarter,
            InnerNode::at(top, planes),
            InnerNode::at(middle, planes),
        );
        out.put_number(inclusion.width, inclusion.value);
        return;
    }
    let head = included_codeword(marks, quarter, top, middle, entry.zero_planes);
    let numbers = numbers_codeword(entry.passes, entry.len);
    put_both(head, numbers, out);
}
