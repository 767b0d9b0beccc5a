//! Chunks of a file and the reads of loads, in the words of the subject.
//! No code calls them.
ghost use Rattle.std.specs.Prelude.{◌≡◌, ℕ, ◌+◌, ◌<◌, ◌≤◌, List, [], length, slice_index_or, fold, filter_map, Option, Some, get_or};
ghost use Rattle.std.specs.List.{range_with_len};
ghost use Rattle.lists.specs.Numbers.{product};
ghost use Rattle.cells.specs.Cells.{cell_value, empty_cell};
ghost use Rattle.cells.specs.Records.{record_of, merged};
ghost use Rattle.layouts.specs.Rules.{IsLayout};
ghost use Rattle.chunk_store.specs.FirstChunks.{cells_of_chunks, places_of_chunk, places_of_first_chunks, chunk_numbers, numbers_of_chunk, numbers_of_first_chunks};
ghost use Rattle.source_io.specs.Asked.{Asks};
ghost use Rattle.layouts.specs.declared.numbers.LayoutNumbers.{LayoutNumbers};
ghost use Rattle.layouts.specs.Chunks.{chunk_cells, chunk_count, cell_chunk, cell_index};
ghost use Rattle.cells.specs.declared.cell.Cell.{Cell};
ghost use Rattle.array_file.specs.Header.{file_size};
ghost use Rattle.array_file.specs.Stored.{cell_at, cell_start, chunk_start};
ghost use Rattle.chunk_store.specs.Loaded.{HoldsChunk};
ghost use Rattle.chunk_store.specs.Pieces.{AsksPieces, chunk_end};

use cells::laws::{record_of_both_is_merged, record_of_by_weighings};

/// A cell of the array is among the cells of its chunk, at its index there.
pub fn loaded_chunk_holds_its_cells()
    ensures { (bytes : List ℕ) (l : LayoutNumbers) (k : ℕ) (cells : List Cell) (other : Cell) →
        HoldsChunk (Some bytes) l (cell_chunk l k) cells → cell_index l k < chunk_cells l →
        get_or cells (cell_index l k) other ≡ cell_at bytes (cell_start l k) }
{}

/// The first chunk begins after the header, each other chunk begins where the one before it ends, and the last ends
/// with the file.
pub fn chunks_follow_each_other()
    ensures first { (l : LayoutNumbers) → chunk_start l 0 ≡ 96 }
    ensures next { (l : LayoutNumbers) (n : ℕ) → chunk_start l (n + 1) ≡ chunk_end l n }
    ensures last { (l : LayoutNumbers) → chunk_start l (chunk_count l) ≡ file_size l }
{}

/// Reads from an offset up to another, and then from there on, are reads from the first offset on. So chunks that
/// are loaded in order are read in order.
pub fn reads_go_on()
    ensures { (old mid new : Option (List (ℕ × ℕ))) (a b c : ℕ) → a ≤ b → b ≤ c →
        AsksPieces old mid a b → AsksPieces mid new b c → AsksPieces old new a c }
{}

/// Reads within some offsets are reads within wider ones, no reads are within any, and reads in pieces rise.
pub fn reads_in_pieces()
    ensures wider { (old new : Option (List (ℕ × ℕ))) (a b c d : ℕ) → a ≤ b → c ≤ d → AsksPieces old new b c → AsksPieces old new a d }
    ensures none { (old : Option (List (ℕ × ℕ))) (a b : ℕ) → AsksPieces old old a b }
    ensures rise { (old new : Option (List (ℕ × ℕ))) (a b : ℕ) → AsksPieces old new a b → Asks old new a b }
{}

/// The record of the whole array is merged from the records of its chunks, in their order. `f` gives the cell of a
/// chunk at an index of the chunk. Padding is not counted, and each cell of the array is counted once. The clauses
/// after the first one are for a loop over the chunks.
pub fn records_of_chunks_make_the_array()
    ensures whole { (l : LayoutNumbers) (f : ℕ → ℕ → Cell) → IsLayout l →
        record_of (filter_map cell_value (cells_of_chunks l f)) ≡ fold (λ all n. merged all (record_of (numbers_of_chunk l f n))) (record_of []) (range_with_len 0 (chunk_count l)) }
    ensures none { (l : LayoutNumbers) (f : ℕ → ℕ → Cell) → numbers_of_first_chunks l f 0 ≡ [] }
    ensures next { (l : LayoutNumbers) (f : ℕ → ℕ → Cell) (m : ℕ) →
        record_of (numbers_of_first_chunks l f (m + 1)) ≡ merged (record_of (numbers_of_first_chunks l f m)) (record_of (numbers_of_chunk l f m)) }
    ensures all { (l : LayoutNumbers) (f : ℕ → ℕ → Cell) → IsLayout l → numbers_of_first_chunks l f (chunk_count l) ≡ filter_map cell_value (cells_of_chunks l f) }
    ensures cells { (l : LayoutNumbers) (f : ℕ → ℕ → Cell) (n : ℕ) (chunk : List Cell) → IsLayout l →
        ((p : ℕ) → p < chunk_cells l → slice_index_or chunk p empty_cell ≡ f n p) → chunk_numbers l n chunk ≡ numbers_of_chunk l f n }
{
    record_of_both_is_merged();
    record_of_by_weighings();
}

/// Each chunk has its own places, and together the chunks have all places of the array.
pub fn chunks_share_no_cell()
    ensures next { (l : LayoutNumbers) (m : ℕ) → length (places_of_first_chunks l (m + 1)) ≡ length (places_of_first_chunks l m) + length (places_of_chunk l m) }
    ensures few { (l : LayoutNumbers) (m : ℕ) → length (places_of_first_chunks l m) ≤ product l.extents }
{}
