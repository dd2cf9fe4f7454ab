// The words of refusals.
ghost use Rattle.std.specs.Prelude.{◌≡◌, ◌↔◌, option_map, IsSome, IsTrue};
ghost use Rattle.cert_text.specs.Refusals.{frame_word, packet_word, part_word, marker_word};
ghost use Rattle.cert_text.specs.Refusals.{stream_word, word_of};

/// The words of refusals of a file that is no frame, and a frame whose limits are too small.
fn frame_word(code: u8) -> Option<&'static str>
    ensures { option_map (λ word. word.now) result ≡ frame_word code }
{
    match code {
        1 => Some("NotPpm"),
        2 => Some("BadHeader"),
        3 => Some("HeaderTooLong"),
        4 => Some("WrongMaxval"),
        5 => Some("WidthOutOfRange"),
        6 => Some("HeightOutOfRange"),
        7 => Some("SampleTooLarge"),
        8 => Some("Truncated"),
        9 => Some("TrailingBytes"),
        10 => Some("LimitTooSmall"),
        _ => None,
    }
}

/// The words of refusals of a packet header (ISO/IEC 15444-1, B.10).
fn packet_word(code: u8) -> Option<&'static str>
    ensures { option_map (λ word. word.now) result ≡ packet_word code }
{
    match code {
        20 => Some("HeaderTruncated"),
        21 => Some("StuffedBitSet"),
        22 => Some("ZeroPlanesTooMany"),
        23 => Some("PassesTooMany"),
        24 => Some("BodyTruncated"),
        _ => None,
    }
}

/// The words of refusals of a tile-part (A.4.2, A.4.3).
fn part_word(code: u8) -> Option<&'static str>
    ensures { option_map (λ word. word.now) result ≡ part_word code }
{
    match code {
        30 => Some("BadTilePart"),
        31 => Some("PsotZero"),
        32 => Some("TilePartMarker"),
        _ => None,
    }
}

/// The words of refusals of a main header (Annex A).
fn marker_word(code: u8) -> Option<&'static str>
    ensures { option_map (λ word. word.now) result ≡ marker_word code }
{
    match code {
        40 => Some("NotSoc"),
        41 => Some("SegmentTruncated"),
        42 => Some("UnexpectedMarker"),
        43 => Some("Repeated"),
        44 => Some("Missing"),
        45 => Some("BadSiz"),
        46 => Some("BadCod"),
        47 => Some("BadQcd"),
        48 => Some("BadPoc"),
        49 => Some("BadTlm"),
        50 => Some("NotCinema"),
        51 => Some("TooLarge"),
        52 => Some("OutsideProfile"),
        _ => None,
    }
}

/// The words of refusals of a whole codestream.
fn stream_word(code: u8) -> Option<&'static str>
    ensures { option_map (λ word. word.now) result ≡ stream_word code }
{
    match code {
        60 => Some("BytesAfterEnd"),
        61 => Some("LimitExceeded"),
        62 => Some("TooManyPlanes"),
        63 => Some("MissingEnd"),
        64 => Some("PartTooLong"),
        _ => None,
    }
}

/// The word of a refusal's code in a line; None for a code that no line names.
pub fn refusal_word(code: u8) -> Option<&'static str>
    ensures { option_map (λ word. word.now) result ≡ word_of code }
{
    frame_word(code)
        .or(packet_word(code))
        .or(part_word(code))
        .or(marker_word(code))
        .or(stream_word(code))
}
