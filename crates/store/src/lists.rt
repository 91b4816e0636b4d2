ghost use Rattle.std.specs.Prelude.{◌≡◌, ℕ, ◌+◌, ◌<◌, ◌≤◌, length};
ghost use Rattle.rules.specs.Views.{with_list};
ghost use Rattle.hir.specs.Tables.{tables, Held};
ghost use Rattle.hir.specs.View.{instructions_at, rows, view};
ghost use Rattle.hir.specs.WellFormed.{blocks_limit, numbers_limit, Room};
ghost use Rattle.hir.specs.Lists.{block_number, with_listed_block, with_new_list, BlockFitsIn, HasBlock, ListFits, UnlistedBut};
ghost use Rattle.hir.specs.Frame.{Becomes};

use super::append::write_numbers;
use hir::{BasicBlock, BlockId, FormedStore, FunctionId, Store};

// As the appends of other tables, it differs in what it names.
fn write_block(store: &mut Store<'_>, block: BasicBlock, list: &[u32]) -> BlockId
    requires numbers { Room store.old.counts.numbers (length list.now) (length store.old.numbers.now) numbers_limit }
    requires blocks { Room store.old.counts.blocks 1 (length store.old.blocks.now) blocks_limit }
    ensures at { result.0 ≡ store.old.counts.blocks }
    ensures writes { tables store.new ≡ with_listed_block (tables store.old) block list.now }
    ensures held { Held store.new store.old }
{
    let instructions = write_numbers(store, list);
    let id = store.counts.take_block();
    store.blocks[id.0 as usize] = BasicBlock {
        instructions,
        ..block
    };
    id
}

// A block that lists these rows. No function has it yet, so nothing that was seen changes.
pub fn append_block(store: &mut FormedStore<'_>, block: BasicBlock, list: &[u32]) -> BlockId
    requires numbers { Room store.old.counts.numbers (length list.now) (length store.old.numbers.now) numbers_limit }
    requires blocks { Room store.old.counts.blocks 1 (length store.old.blocks.now) blocks_limit }
    requires fits { BlockFitsIn (tables store.old) block list.now }
    ensures at { result.0 ≡ store.old.counts.blocks }
    ensures does { Becomes store.old store.new (with_listed_block (tables store.old) block list.now) (view (tables store.old)) }
{
    write_block(&mut store.lent, block, list)
}

fn write_list(store: &mut Store<'_>, function: FunctionId, k: u32, list: &[u32])
    requires function { function.0 < length store.old.functions.now }
    requires in_table { block_number (tables store.old) function.0 k < length store.old.blocks.now }
    requires in_limit { block_number (tables store.old) function.0 k < blocks_limit }
    requires room { Room store.old.counts.numbers (length list.now) (length store.old.numbers.now) numbers_limit }
    ensures writes { tables store.new ≡ with_new_list (tables store.old) function.0 k list.now }
    ensures held { Held store.new store.old }
{
    let run = write_numbers(store, list);
    let at = (store.functions[function.0 as usize].blocks.first + k) as usize;
    store.blocks[at].instructions = run;
}

// Gives the k-th block of a function a new list of rows.
pub fn set_block_list(store: &mut FormedStore<'_>, function: FunctionId, k: u32, list: &[u32])
    requires has { HasBlock (tables store.old) function.0 k }
    requires room { Room store.old.counts.numbers (length list.now) (length store.old.numbers.now) numbers_limit }
    requires fits { ListFits (tables store.old) list.now }
    requires unlisted { UnlistedBut (tables store.old) (block_number (tables store.old) function.0 k) list.now }
    ensures does { Becomes store.old store.new (with_new_list (tables store.old) function.0 k list.now) (with_list (view (tables store.old)) function.0 k (instructions_at (rows (tables store.old)) list.now)) }
{
    write_list(&mut store.lent, function, k, list)
}
