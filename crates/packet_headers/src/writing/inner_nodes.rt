// What the writer keeps of the nodes above the leaves of a band's two tag trees.
ghost use Rattle.std.specs.Prelude.{◌≡◌, not, true};

/// A node of both trees: whether a block under it is included, and the least zero planes of those
/// under it.
#[derive(Clone, Copy)]
pub struct InnerNode {
    pub included: bool,
    pub zero_planes: u8,
}

impl InnerNode {
    ghost use Rattle.packet_headers.specs.InsideWriting.{inner_node_at};

    /// A node whose least zero planes are these, in a band of so many planes: an included block
    /// under it has fewer zero planes.
    #[inline]
    pub fn at(zero_planes: u8, planes: u8) -> InnerNode
        ensures { result ≡ inner_node_at planes zero_planes }
    {
        InnerNode {
            included: zero_planes < planes,
            zero_planes,
        }
    }
}

/// Which nodes above the leaves have been written.
#[derive(Clone, Copy)]
pub struct Marks {
    pub top: bool,
    pub middle: [bool; 4],
}

impl Marks {
    /// Marks the node above the middle ones, and returns whether it wasn't marked.
    pub fn mark_top(&mut self) -> bool
        ensures first { result ≡ not self.old.top }
        ensures top { self.new.top ≡ true }
        ensures middle { self.new.middle ≡ self.old.middle }
    {
        let first = !self.top;
        self.top = true;
        first
    }
}
