//! The operand stack in a slice of cells. Its height is passed by value from one operation to the next, and there is
//! a free cell above it.

ghost use Rattle.std.specs.Prelude.{◌≡◌, ◌∷◌, ◌<◌, ◌≤◌, length};
ghost use Rattle.wasm_ast.specs.declared.types.Value.TheVariants.{I64};
ghost use Rattle.interp.specs.inside.OperandStack.{operand_stack};

/// Pops the topmost cell, and returns it with the new height.
#[inline(always)]
pub fn pop(cells: &[u64], top: usize) -> (u64, usize)
    requires there { 1 ≤ length (operand_stack cells.now top) }
    requires within { top ≤ length cells.now }
    ensures here { operand_stack cells.now top ≡ I64 result.0 ∷ operand_stack cells.now result.1 }
    ensures room { result.1 < length cells.now }
{
    let below = top - 1;
    (cells[below], below)
}

/// Pushes a cell, and returns the new height.
#[inline(always)]
pub fn push(cells: &mut [u64], top: usize, cell: u64) -> usize
    requires { top < length cells.old }
    ensures here { operand_stack cells.new result ≡ I64 cell ∷ operand_stack cells.old top }
    ensures within { result ≤ length cells.new }
{
    cells[top] = cell;
    top + 1
}
