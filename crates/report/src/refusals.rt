//! Refusals as text: what is refused, and the number, the name and the fields of the refusal.
//! Used in this crate by `endings`.
ghost use Rattle.std.specs.Prelude.{◌≡◌, ◌+◌, ◌≤◌, ◌++◌, length, decimal, codes};
ghost use Rattle.report.specs.Status as status;
ghost use Rattle.report.specs.Status.{location_text};

use crate::ending::Refusal;
use crate::line::Line;
use array_file::FileRefusal;
use array_text::TextRefusal;
use layouts::LayoutRefusal;
use query_text::{Location, QueryRefusal};

/// A line with this text, and then a number.
fn line_with_number(text: &[u8], n: u64) -> Line
    requires { length text.now ≤ 100 }
    ensures text { result ≡ text.now ++ decimal n }
    ensures short { length result ≤ length text.now + 40 }
{
    let mut line = Line::from_text(text);
    line.push_number(n);
    line
}

/// A line with this text, and then two numbers with a space between them.
fn line_with_numbers(text: &[u8], n: u64, m: u64) -> Line
    requires { length text.now ≤ 100 }
    ensures text { result ≡ text.now ++ decimal n ++ codes " " ++ decimal m }
    ensures short { length result ≤ length text.now + 81 }
{
    let mut line = line_with_number(text, n);
    line.push(b" ");
    line.push_number(m);
    line
}

/// A line with this text, and then the four numbers of a location in a query.
fn line_with_location(text: &[u8], location: Location) -> Line
    requires { length text.now ≤ 30 }
    ensures text { result ≡ text.now ++ location_text location }
    ensures short { length result ≤ 200 }
{
    let mut line = line_with_number(text, location.part as u64);
    line.push(b".");
    line.push_number(location.item as u64);
    line.push(b".");
    line.push_number(location.field as u64);
    line.push(b".");
    line.push_number(location.sub as u64);
    line
}

/// A line with the first text, and the second text after it.
fn line_with_text(text: &[u8], more: &Line) -> Line
    requires { length text.now + length more.now ≤ 360 }
    ensures text { result ≡ text.now ++ more.now }
    ensures short { length result ≤ length text.now + length more.now }
{
    let mut line = Line::from_text(text);
    line.push(more.as_bytes());
    line
}

/// The number, the name and the fields of a refusal of a layout, as one of an array file.
fn layout_refusal_text(refusal: LayoutRefusal) -> Line
    ensures text { result ≡ status.layout_refusal_text refusal }
    ensures short { length result ≤ 200 }
{
    match refusal {
        LayoutRefusal::Rank { n } => line_with_number(b"4 Rank ", n as u64),
        LayoutRefusal::Extent { dim } => line_with_number(b"5 Extent ", dim as u64),
        LayoutRefusal::TooManyCells => Line::from_text(b"6 TooManyCells"),
        LayoutRefusal::ChunkExtent { dim } => line_with_number(b"7 ChunkExtent ", dim as u64),
        LayoutRefusal::ChunkTooLarge => Line::from_text(b"8 ChunkTooLarge"),
        LayoutRefusal::Levels { n } => line_with_number(b"9 Levels ", n as u64),
        LayoutRefusal::LevelExtent { level, dim } => {
            line_with_numbers(b"10 LevelExtent ", level as u64, dim as u64)
        }
        LayoutRefusal::CoarseGridTooLarge { blocks } => {
            line_with_number(b"11 CoarseGridTooLarge ", blocks)
        }
        LayoutRefusal::TooManyBlocks => Line::from_text(b"12 TooManyBlocks"),
    }
}

/// The number, the name and the fields of a refusal of an array file.
fn array_refusal_text(refusal: FileRefusal) -> Line
    ensures text { result ≡ status.array_refusal_text refusal }
    ensures short { length result ≤ 200 }
{
    match refusal {
        FileRefusal::Short { size } => line_with_number(b"1 Short ", size),
        FileRefusal::Magic => Line::from_text(b"2 Magic"),
        FileRefusal::Version { n } => line_with_number(b"3 Version ", n as u64),
        FileRefusal::Layout(refusal) => layout_refusal_text(refusal),
        FileRefusal::WrongLength { stated, found } => {
            line_with_numbers(b"13 WrongLength ", stated, found)
        }
    }
}

/// The number, the name and the fields of a refusal of an array text.
fn text_refusal_text(refusal: TextRefusal) -> Line
    ensures text { result ≡ status.text_refusal_text refusal }
    ensures short { length result ≤ 300 }
{
    match refusal {
        TextRefusal::TooLong { size } => line_with_number(b"1 TooLong ", size),
        TextRefusal::Word { n } => line_with_number(b"2 Word ", n),
        TextRefusal::Missing { n } => line_with_number(b"3 Missing ", n),
        TextRefusal::Extra { n } => line_with_number(b"4 Extra ", n),
        TextRefusal::Layout(refusal) => {
            line_with_text(b"5 Layout ", &layout_refusal_text(refusal))
        }
    }
}

/// The number, the name and the fields of a refusal of a query file.
fn query_refusal_text(refusal: QueryRefusal) -> Line
    ensures text { result ≡ status.query_refusal_text refusal }
    ensures short { length result ≤ 200 }
{
    match refusal {
        QueryRefusal::TooLong { size } => line_with_number(b"1 TooLong ", size),
        QueryRefusal::NotJson => Line::from_text(b"2 NotJson"),
        QueryRefusal::Shape { location } => line_with_location(b"3 Shape ", location),
        QueryRefusal::UnknownKey { location } => line_with_location(b"4 UnknownKey ", location),
        QueryRefusal::Number { location } => line_with_location(b"5 Number ", location),
        QueryRefusal::Name { location } => line_with_location(b"6 Name ", location),
        QueryRefusal::Repeated { location } => line_with_location(b"7 Repeated ", location),
        QueryRefusal::Unbound { location } => line_with_location(b"8 Unbound ", location),
        QueryRefusal::Dimensions { region, found } => {
            line_with_numbers(b"9 Dimensions ", region as u64, found)
        }
        QueryRefusal::TooMany { location } => line_with_location(b"10 TooMany ", location),
        QueryRefusal::TooLarge => Line::from_text(b"11 TooLarge"),
    }
}

/// What a refusal says.
pub fn refusal_text(refusal: Refusal) -> Line
    ensures text { result ≡ status.refusal_text refusal }
    ensures short { length result ≤ 360 }
{
    match refusal {
        Refusal::Words => Line::from_text(
            b"usage: searchlight COMMAND WORDS; commands: solo search rehearse verify pack info trial",
        ),
        Refusal::Array(refusal) => line_with_text(b"array refused: ", &array_refusal_text(refusal)),
        Refusal::Text(refusal) => line_with_text(b"text refused: ", &text_refusal_text(refusal)),
        Refusal::Query(refusal) => line_with_text(b"query refused: ", &query_refusal_text(refusal)),
    }
}
