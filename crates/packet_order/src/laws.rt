// Laws of the definitions, for the crates above: a call of one of these functions, which do
// nothing, gives the caller its clauses.
ghost use Rattle.std.specs.Prelude.{◌≡◌, ◌-◌, ◌*◌, ◌<◌, ◌≤◌, ℕ, length};
ghost use Rattle.std.specs.List.{All, AllPairs, Contains};
ghost use Rattle.cine_nums.specs.declared.orient.Orient.{Orient};
ghost use Rattle.band_geometry.specs.Bands.{HasBand, IsBlock, precinct_blocks_of};
ghost use Rattle.band_geometry.specs.TileParts.{part_of_res};
ghost use Rattle.band_geometry.specs.declared.geometry.Geometry.{Geometry};
ghost use Rattle.band_geometry.specs.declared.places.BlockId.{BlockId};
ghost use Rattle.packet_order.specs.Blocks.{blocks_in, blocks_of_packet, packet_of_block};
ghost use Rattle.packet_order.specs.Blocks.{IsBlockIn, IsBlockOf};
ghost use Rattle.packet_order.specs.Order.{IsPacketOf};
ghost use Rattle.packet_order.specs.declared.packet.PacketId.{PacketId};

/// Each code block is in exactly one packet of one tile-part, and stands there once: a packet's
/// blocks are those of its precinct (`in_band`, `in_packet`), each block is in the packet of its
/// precinct (`has_block`), which is one of the tile-part that holds the block's resolution
/// (`has_packet`), and no block stands in a packet twice (`apart`). A packet has as many blocks of
/// a band as its range has places (`count`) (ISO/IEC 15444-1, B.6, B.7 and B.9).
pub fn blocks()
    ensures in_band { (g : Geometry) (p : PacketId) (o : Orient) → p.component < 3 →
        HasBand g p.res o → All (IsBlockIn g p o) (blocks_in g p o) }
    ensures in_packet { (g : Geometry) (p : PacketId) → p.component < 3 → p.res ≤ g.levels →
        All (IsBlockOf g p) (blocks_of_packet g p) }
    ensures has_block { (g : Geometry) (b : BlockId) → IsBlock g b →
        Contains (blocks_of_packet g (packet_of_block b)) b }
    ensures has_packet { (g : Geometry) (b : BlockId) → IsBlock g b →
        IsPacketOf g (part_of_res g.profile g.levels b.component b.res) (packet_of_block b) }
    ensures apart { (g : Geometry) (p : PacketId) → p.component < 3 → p.res ≤ g.levels →
        AllPairs (λ a b. a ≡ b → ⊥) (blocks_of_packet g p) }
    ensures count { (g : Geometry) (p : PacketId) (o : Orient) (rows columns : ℕ) →
        rows ≡ (precinct_blocks_of g p.res o p.px p.py).y1
        - (precinct_blocks_of g p.res o p.px p.py).y0 →
        columns ≡ (precinct_blocks_of g p.res o p.px p.py).x1
        - (precinct_blocks_of g p.res o p.px p.py).x0 →
        length (blocks_in g p o) ≡ rows * columns }
{}
