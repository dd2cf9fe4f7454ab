// The shape of a packet that is to be read.
ghost use Rattle.std.specs.Prelude.{◌≡◌};
ghost use Rattle.band_geometry.specs.Bands.{HasBand};
ghost use Rattle.packet_headers.specs.Reading.{CanRead, CanReadBand};
ghost use Rattle.profile_reader.specs.Shapes.{shape_in, shapes_in};
ghost use Rattle.codestream_reader.specs.Spans.{AreReadable, IsPacket};

use arrayvec::ArrayVec;
use band_geometry::Geometry;
use cine_nums::Orient;
use dz_quantiser::{StepSizes, planes};
use packet_headers::{BandShape, PacketShape};
use packet_order::PacketId;

/// How many code-blocks a packet has of each band, and their magnitude bit-planes.
pub(crate) fn shape_of(geometry: &Geometry, steps: &StepSizes, id: PacketId) -> PacketShape
    requires id { IsPacket geometry.now id }
    requires steps { AreReadable geometry.now.levels steps.now }
    ensures value { result.bands.items ≡ shapes_in geometry.now steps.now id }
    ensures can_read { CanRead result.bands.items }
{
    let mut bands = ArrayVec::new();
    if id.res == 0 {
        bands.push(band_shape(geometry, steps, id, Orient::LL));
        return PacketShape { bands };
    }
    bands.push(band_shape(geometry, steps, id, Orient::HL));
    bands.push(band_shape(geometry, steps, id, Orient::LH));
    bands.push(band_shape(geometry, steps, id, Orient::HH));
    PacketShape { bands }
}

/// Those of one band.
fn band_shape(geometry: &Geometry, steps: &StepSizes, id: PacketId, orient: Orient) -> BandShape
    requires id { IsPacket geometry.now id }
    requires steps { AreReadable geometry.now.levels steps.now }
    requires band { HasBand geometry.now id.res orient }
    ensures value { result ≡ shape_in geometry.now steps.now id orient }
    ensures can_read { CanReadBand result }
{
    let range = geometry.precinct_blocks(id.res, orient, id.px, id.py);
    let step = steps.step(geometry.levels, id.res, orient);
    BandShape {
        width: (range.x1 - range.x0) as u8,
        height: (range.y1 - range.y0) as u8,
        planes: planes(steps.guard, step),
    }
}
