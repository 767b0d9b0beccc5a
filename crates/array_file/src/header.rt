//! The header of an array file, read and written.
//! Used in this crate by `writing`, and by `search_run`.
ghost use Rattle.std.specs.Prelude.{◌≡◌, ◌+◌, ◌≤◌, ◌⊎◌, Some, None, length, min, MatchResult, IfOk, IsErrOf};
ghost use Rattle.source_io.specs.Told.{Rose};
ghost use Rattle.source_io.specs.Asked.{Asks};
ghost use Rattle.lists.specs.Rules.{first_broken};
ghost use Rattle.layouts.specs.Rules.{layout_rules};
ghost use Rattle.array_file.specs.Header as parts;
ghost use Rattle.array_file.specs.Header.{header_numbers, layout_in, layout_numbers, layout_refusal, stored_layout, three_from, header_of};
ghost use Rattle.array_file.specs.Reads.{ReadsHeader};

use crate::{FileRefusal, HEADER_BYTES, file_size};
use byteorder::{ByteOrder, LittleEndian};
use layouts::{Layout, LayoutNumbers, LayoutRefusal};
use source_io::{ByteSource, read_whole};

/// The twelve bytes that each array file begins with.
const MAGIC: &[u8; 12] = b"SEARCHLIGHT\n";

/// The version of array files that this crate reads and writes.
const VERSION: u32 = 1;

/// Why no layout was read.
#[derive(Clone, Copy, Debug, PartialEq, Eq)]
pub enum HeaderFault {
    /// The file breaks a rule.
    Refused(FileRefusal),
    /// The source counted a fault.
    Read,
}

/// The 21 numbers after the magic word.
fn numbers(header: &[u8]) -> [u32; 21]
    requires { length header.now ≡ 96 }
    ensures { result ≡ header_numbers header.now }
{
    let mut numbers = [0; 21];
    LittleEndian::read_u32_into(&header[12..], &mut numbers);
    numbers
}

/// Three of the numbers, from the k-th on.
fn three(numbers: &[u32; 21], k: usize) -> [u32; 3]
    requires { k + 3 ≤ 21 }
    ensures { result ≡ three_from numbers.now k }
{
    [numbers[k], numbers[k + 1], numbers[k + 2]]
}

/// The layout that these numbers state, or the first of its rules that they break.
fn layout_from(numbers: &[u32; 21]) -> Result<Layout, LayoutRefusal>
    ensures { MatchResult result
        (λ l. (first_broken (layout_rules (layout_in numbers.now)) ≡ None) × (l ≡ layout_in numbers.now))
        (λ r. first_broken (layout_rules (layout_in numbers.now)) ≡ Some r) }
{
    let blocks = [
        three(numbers, 9),
        three(numbers, 12),
        three(numbers, 15),
        three(numbers, 18),
    ];
    Layout::new(LayoutNumbers {
        rank: numbers[1],
        extents: three(numbers, 2),
        chunk: three(numbers, 5),
        levels: numbers[8],
        blocks,
    })
}

/// The layout that a file's header states, exactly if the file keeps every rule. Otherwise the refusal of the first
/// rule that it breaks. `bytes` has the first 96 bytes, or all bytes of a shorter file. `size` is the size of the file
/// in bytes.
pub fn read_layout(bytes: &[u8], size: u64) -> Result<Layout, FileRefusal>
    requires { length bytes.now ≡ min 96 size }
    ensures exactly { MatchResult result
        (λ l. (layout_refusal bytes.now size ≡ None) × (l ≡ stored_layout bytes.now))
        (λ r. layout_refusal bytes.now size ≡ Some r) }
    ensures size { IfOk result (λ l. parts.file_size l ≡ size) }
{
    if bytes.len() < HEADER_BYTES {
        return Err(FileRefusal::Short { size });
    }
    if !bytes.starts_with(MAGIC) {
        return Err(FileRefusal::Magic);
    }
    let numbers = numbers(bytes);
    let version = numbers[0];
    if version != VERSION {
        return Err(FileRefusal::Version { n: version });
    }
    let layout = match layout_from(&numbers) {
        Ok(layout) => layout,
        Err(refusal) => return Err(FileRefusal::Layout(refusal)),
    };
    let stated = file_size(&layout);
    if size != stated {
        return Err(FileRefusal::WrongLength {
            stated,
            found: size,
        });
    }
    Ok(layout)
}

/// Reads the layout of a file from its header: its first 96 bytes, or all bytes of a shorter file. `Refused` exactly by
/// the rules of `read_layout`. `Read` only if the source counted a fault.
pub fn read_header<S: ByteSource>(src: &mut S) -> Result<Layout, HeaderFault>
    ensures read { ReadsHeader (S.file src.old).bytes result }
    ensures size { IfOk result (λ l. parts.file_size l ≡ (S.file src.old).len) }
    ensures cause { IsErrOf result HeaderFault.Read → Rose (S.faults src.old) (S.faults src.new) }
    ensures faults { S.faults src.old ≤ S.faults src.new }
    ensures no_fault { (S.faults src.new ≡ S.faults src.old) ⊎ IsErrOf result HeaderFault.Read }
    ensures asked { Asks (S.asked src.old) (S.asked src.new) 0 (min 96 (S.file src.old).len) }
    ensures same_file { S.file src.new ≡ S.file src.old }
{
    let size = src.size();
    let mut bytes = [0; HEADER_BYTES];
    let header = &mut bytes[..size.min(HEADER_BYTES as u64) as usize];
    if read_whole(src, 0, header).is_err() {
        return Err(HeaderFault::Read);
    }
    match read_layout(header, size) {
        Ok(layout) => Ok(layout),
        Err(refusal) => Err(HeaderFault::Refused(refusal)),
    }
}

/// The 21 numbers of a layout's header.
fn numbers_of(layout: &Layout) -> [u32; 21]
    ensures { result ≡ layout_numbers layout.now }
{
    let [e, e_2, e_3] = layout.shape().extents;
    let [c, c_2, c_3] = layout.chunk();
    let [b, b_2, b_3] = layout.block(0);
    let [b_4, b_5, b_6] = layout.block(1);
    let [b_7, b_8, b_9] = layout.block(2);
    let [b_10, b_11, b_12] = layout.block(3);
    let rank = u32::from(layout.rank());
    let levels = u32::from(layout.levels());
    [
        VERSION, rank, e, e_2, e_3, c, c_2, c_3, levels, //
        b, b_2, b_3, b_4, b_5, b_6, b_7, b_8, b_9, b_10, b_11, b_12,
    ]
}

/// Writes the header of a layout.
pub fn write_layout(layout: &Layout, into: &mut [u8; 96])
    ensures { into.new ≡ header_of layout.now }
{
    into[..12].copy_from_slice(MAGIC);
    LittleEndian::write_u32_into(&numbers_of(layout), &mut into[12..]);
}
