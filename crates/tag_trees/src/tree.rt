// Tag trees.
ghost use Rattle.std.specs.Prelude.{◌≡◌, ℕ, ◌+◌, ◌*◌, ◌<◌, ◌≤◌};

use crate::node::Node;
use bit_stuffing::{BitFault, BitIn, BitSink};

/// A tag tree of at most 4 by 4 leaves (ISO/IEC 15444-1, B.10.2), to write or to read. In a
/// contract its nodes are numbered as `path_of` says.
#[derive(Clone, Copy)]
pub struct Tree {
    width: u8,
    height: u8,
    nodes: [Node; 21],
    ghost sides: { (width ≤ 4) × (height ≤ 4) },
}

/// The node above the middle ones.
const TOP: usize = 20;

impl Tree {
    ghost use Rattle.std.specs.Prelude.{List, [], ◌∷◌, ◌++◌, Bool, length, min, max, nat_lt, ◌&&◌};
    ghost use Rattle.std.specs.Prelude.{◌==◌, if◌then◌else◌, IfOk, IfErr, OnOk, IsOkAnd};
    ghost use Rattle.tag_trees.specs.TagTree.{leaf_node, path_of, is_among, Writing, IsNumbering};
    ghost use Rattle.tag_trees.specs.TagTree.{bits_of_writing, least};
    ghost use Rattle.tag_trees.specs.TreeState.{width_of, height_of, levels_of, node_of, bound_of};
    ghost use Rattle.tag_trees.specs.TreeState.{known_of, value_of, Stands, Allows, IsWritten};
    ghost use Rattle.tag_trees.specs.Inside.{NodeStep, bits_of_step};
    ghost use Rattle.tag_trees.specs.TreeState.{AllowsValue};
    ghost use Rattle.tag_trees.specs.Inside.{RunsOut};
    ghost use Rattle.bit_stuffing.specs.Source.{Took};
    ghost use Rattle.bit_stuffing.specs.Stuffing.{fault_of};

    /// A tree to write, of these sides in leaves, at most 4. Each leaf has its value, in raster
    /// order, and a node above the leaves has the least value of those under it.
    pub fn of(width: u8, height: u8, values: &[u8]) -> Tree
        requires width { width ≤ 4 }
        requires height { height ≤ 4 }
        requires values { length values.now ≡ width * height }
        ensures width { width_of result ≡ width }
        ensures height { height_of result ≡ height }
        ensures written { IsWritten result (least width values.now) [] }
    {
        let mut tree = Tree {
            width,
            height,
            nodes: [Node::unread(u8::MAX); 21],
        };
        for (place, value) in values.iter().enumerate() {
            tree.lower(place % width as usize, place / width as usize, *value);
        }
        tree
    }

    /// A tree to read, of these sides in leaves, at most 4, of which nothing is known.
    pub fn unread(width: u8, height: u8) -> Tree
        requires width { width ≤ 4 }
        requires height { height ≤ 4 }
        ensures width { width_of result ≡ width }
        ensures height { height_of result ≡ height }
        ensures stands { Stands result [] }
        ensures allows { (value : ℕ → ℕ) → Allows result value }
    {
        Tree {
            width,
            height,
            nodes: [Node::unread(0); 21],
        }
    }

    /// How many levels of nodes stand above the leaves.
    fn levels(&self) -> u8
        ensures { result ≡ levels_of self.now }
    {
        let side = self.width.max(self.height);
        if side <= 1 {
            0
        } else if side <= 2 {
            1
        } else {
            2
        }
    }

    /// Brings the values of a leaf and of the nodes above it down to this one.
    fn lower(&mut self, column: usize, row: usize, value: u8)
        requires column { column < 4 }
        requires row { row < 4 }
        ensures values { (n : ℕ) → value_of self.new n
            ≡ (if is_among (path_of 2 column row) n then min value (value_of self.old n)
            else value_of self.old n) }
        ensures bounds { (n : ℕ) → bound_of self.new n ≡ bound_of self.old n }
        ensures known { (n : ℕ) → known_of self.new n ≡ known_of self.old n }
        ensures width { width_of self.new ≡ width_of self.old }
        ensures height { height_of self.new ≡ height_of self.old }
    {
        self.lower_node(4 * row + column, value);
        self.lower_node(16 + (2 * (row / 2) + column / 2), value);
        self.lower_node(TOP, value);
    }

    fn lower_node(&mut self, node: usize, value: u8)
        requires { node < 21 }
        ensures values { (n : ℕ) → value_of self.new n
            ≡ (if node == n then min value (value_of self.old n) else value_of self.old n) }
        ensures bounds { (n : ℕ) → bound_of self.new n ≡ bound_of self.old n }
        ensures known { (n : ℕ) → known_of self.new n ≡ known_of self.old n }
        ensures width { width_of self.new ≡ width_of self.old }
        ensures height { height_of self.new ≡ height_of self.old }
    {
        let kept = self.nodes[node];
        self.nodes[node] = Node {
            value: value.min(kept.value),
            ..kept
        };
    }

    /// Writes the leaf of this column and row up to a threshold of at most 32, after the earlier
    /// writings: the bits of the nodes from the root down to the leaf, in which they come to say
    /// whether its value is below the threshold.
    pub fn write_upto<S: BitSink>(&mut self, x: u8, y: u8, threshold: u8, out: &mut S)
        requires column { x < width_of self.old }
        requires row { y < height_of self.old }
        requires threshold { threshold ≤ 32 }
        requires room { S.bit_count out.old + 700 ≤ 7000 }
        ensures width { width_of self.new ≡ width_of self.old }
        ensures height { height_of self.new ≡ height_of self.old }

        // whatever numbering and writings the tree stands for, and bits the sink
        ensures bits { (value : ℕ → ℕ) (earlier : List Writing) (bits : List Bool) →
            IsWritten self.old value earlier → S.StandsFor out.old bits →
            S.StandsFor out.new (bits ++ bits_of_writing (levels_of self.old) value earlier
            (record { column = x; row = y; threshold = threshold })) }
        ensures written { (value : ℕ → ℕ) (earlier : List Writing) →
            IsWritten self.old value earlier →
            IsWritten self.new value (earlier
            ++ (record { column = x; row = y; threshold = threshold }) ∷ []) }
        ensures few { (value : ℕ → ℕ) (earlier : List Writing) → IsWritten self.old value earlier →
            S.bit_count out.new ≤ S.bit_count out.old + (threshold + 3) }
        ensures most { S.bit_count out.new ≤ S.bit_count out.old + 99 }
    {
        let leaf = 4 * y as usize + x as usize;
        let middle = 16 + (2 * (y as usize / 2) + x as usize / 2);
        let levels = self.levels();
        if levels == 0 {
            self.write_node(leaf, 0, threshold, out);
            return;
        }
        if levels == 1 {
            let start = self.write_node(middle, 0, threshold, out);
            self.write_node(leaf, start, threshold, out);
            return;
        }
        let start = self.write_node(TOP, 0, threshold, out);
        let start = self.write_node(middle, start, threshold, out);
        self.write_node(leaf, start, threshold, out);
    }

    /// Reads the leaf of this column and row up to a threshold of at most 32, after the earlier
    /// readings, and returns whether its value is below the threshold. After a fault the tree and
    /// the bits may stand anywhere.
    pub fn read_upto(
        &mut self,
        x: u8,
        y: u8,
        threshold: u8,
        bits: &mut BitIn<'_>,
    ) -> Result<bool, BitFault>
        requires column { x < width_of self.old }
        requires row { y < height_of self.old }
        requires threshold { threshold ≤ 32 }
        ensures width { width_of self.new ≡ width_of self.old }
        ensures height { height_of self.new ≡ height_of self.old }
        ensures stands { (earlier : List Writing) → Stands self.old earlier →
            OnOk result (Stands self.new (earlier
            ++ (record { column = x; row = y; threshold = threshold }) ∷ [])) }

        // what was written by a numbering that is still allowed is read back, whatever follows
        ensures reads { (value : ℕ → ℕ) (earlier : List Writing) (rest : List Bool) →
            IsNumbering (width_of self.old) (height_of self.old) value → Stands self.old earlier →
            Allows self.old value →
            bits.old.ahead ≡ bits_of_writing (levels_of self.old) value earlier
            (record { column = x; row = y; threshold = threshold }) ++ rest →
            IsOkAnd result (λ below. (below ≡ nat_lt (value (leaf_node x y)) threshold)
            × (bits.new.ahead ≡ rest) × Allows self.new value) }

        // what is read is what each numbering writes that is allowed afterwards
        ensures read { (value : ℕ → ℕ) (earlier : List Writing) →
            IsNumbering (width_of self.old) (height_of self.old) value → Stands self.old earlier →
            OnOk result (Allows self.new value) →
            IfOk result (λ below. (below ≡ nat_lt (value (leaf_node x y)) threshold)
            × Allows self.old value
            × Took bits.old (bits_of_writing (levels_of self.old) value earlier
            (record { column = x; row = y; threshold = threshold })) bits.new) }
        ensures same { bits.new.bytes ≡ bits.old.bytes }
        ensures fault { IfErr result (λ fault. (fault ≡ fault_of bits.old.bytes)
            × (bits.new.ahead ≡ [])) }
    {
        let leaf = 4 * y as usize + x as usize;
        let middle = 16 + (2 * (y as usize / 2) + x as usize / 2);
        let levels = self.levels();
        if levels == 0 {
            return self.read_leaf(leaf, 0, threshold, bits);
        }
        if levels == 1 {
            let start = self.read_node(middle, 0, threshold, bits)?;
            return self.read_leaf(leaf, start, threshold, bits);
        }
        let start = self.read_node(TOP, 0, threshold, bits)?;
        let start = self.read_node(middle, start, threshold, bits)?;
        self.read_leaf(leaf, start, threshold, bits)
    }

    /// The last node of a reading; returns whether its value is known to be below the threshold.
    fn read_leaf(
        &mut self,
        leaf: usize,
        start: u8,
        threshold: u8,
        bits: &mut BitIn<'_>,
    ) -> Result<bool, BitFault>
        requires leaf { leaf < 21 }
        requires threshold { threshold ≤ 32 }
        ensures step { OnOk result (NodeStep self.old leaf start threshold self.new) }
        ensures took { OnOk result (Took bits.old (bits_of_step self.old leaf start self.new)
            bits.new) }
        ensures below { IfOk result (λ below. below ≡ (known_of self.new leaf
            && nat_lt (bound_of self.new leaf) threshold)) }
        ensures same { bits.new.bytes ≡ bits.old.bytes }
        ensures fault { IfErr result (λ fault. (fault ≡ fault_of bits.old.bytes)
            × (bits.new.ahead ≡ [])) }
        ensures ends { IfErr result (λ fault. RunsOut bits.old.ahead
            (max (bound_of self.old leaf) start) threshold (known_of self.old leaf)) }
        ensures width { width_of self.new ≡ width_of self.old }
        ensures height { height_of self.new ≡ height_of self.old }
    {
        self.read_node(leaf, start, threshold, bits)?;
        Ok(self.nodes[leaf].is_below(threshold))
    }

    /// One node of a writing; returns the bound that it then has.
    fn write_node<S: BitSink>(&mut self, node: usize, start: u8, threshold: u8, out: &mut S) -> u8
        requires node { node < 21 }
        requires threshold { threshold ≤ 32 }
        requires room { S.bit_count out.old + 100 ≤ 7000 }
        ensures step { NodeStep self.old node start threshold self.new }
        ensures bits { (bits : List Bool) → S.StandsFor out.old bits →
            S.StandsFor out.new (bits ++ bits_of_step self.old node start self.new) }
        ensures count { S.bit_count out.new ≡ S.bit_count out.old
            + length (bits_of_step self.old node start self.new) }
        ensures few { S.bit_count out.new ≤ S.bit_count out.old + 33 }
        ensures allowed { AllowsValue (known_of self.old node) (max (bound_of self.old node) start)
            (value_of self.old node) →
            AllowsValue (known_of self.new node) (bound_of self.new node) (value_of self.old node) }
        ensures bound { result ≡ bound_of self.new node }
    {
        let kept = self.nodes[node].write(start, threshold, out);
        self.nodes[node] = kept;
        kept.bound
    }

    /// One node of a reading; returns the bound that it then has.
    fn read_node(
        &mut self,
        node: usize,
        start: u8,
        threshold: u8,
        bits: &mut BitIn<'_>,
    ) -> Result<u8, BitFault>
        requires node { node < 21 }
        requires threshold { threshold ≤ 32 }
        ensures step { OnOk result (NodeStep self.old node start threshold self.new) }
        ensures took { OnOk result (Took bits.old (bits_of_step self.old node start self.new)
            bits.new) }
        ensures bound { IfOk result (λ bound. bound ≡ bound_of self.new node) }
        ensures same { bits.new.bytes ≡ bits.old.bytes }
        ensures fault { IfErr result (λ fault. (fault ≡ fault_of bits.old.bytes)
            × (bits.new.ahead ≡ [])) }
        ensures ends { IfErr result (λ fault. RunsOut bits.old.ahead
            (max (bound_of self.old node) start) threshold (known_of self.old node)) }
        ensures width { width_of self.new ≡ width_of self.old }
        ensures height { height_of self.new ≡ height_of self.old }
    {
        let kept = self.nodes[node].read(start, threshold, bits)?;
        self.nodes[node] = kept;
        Ok(kept.bound)
    }
}
