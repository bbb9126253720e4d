// The cells of a chart's table.
ghost use Rattle.std.specs.Prelude.{◌≡◌, ℕ, ◌+◌, ◌<◌, ◌≤◌, length, if◌then◌else◌, nat_eq, slice_index_or};
ghost use Rattle.chart.specs.Table.{column_place, cell_place};
ghost use Rattle.chart.specs.Inner.{Added};

use weighing::weighing::Weighing;

// Where a column begins.
pub(crate) fn column_place(symbols: usize, end: usize) -> usize
    requires { (symbols ≤ 128) × ((0 < end) × (end ≤ 257)) }
    ensures { result ≡ column_place symbols end }
{
    end * (end - 1) / 2 * symbols
}

// Where a cell begins.
pub(crate) fn cell_place(symbols: usize, end: usize, start: usize) -> usize
    requires { (symbols ≤ 128) × ((0 < end) × ((end ≤ 257) × (start < end))) }
    ensures { result ≡ cell_place symbols end start }
{
    column_place(symbols, end) + start * symbols
}

// What stands at a place, or zero past the end: the weights of a table are zero where it has none, so there is no Option of it.
pub(crate) fn peek<W: Weighing>(weights: &[W::Value], place: usize) -> W::Value
    ensures { result ≡ slice_index_or weights.now place W.Weighing.ops.zero }
{
    weights.get(place).copied().unwrap_or(W::zero())
}

// The weight at a place times another.
pub(crate) fn product<W: Weighing>(weights: &[W::Value], place: usize, weight: W::Value) -> W::Value
    requires { place < length weights.now }
    ensures { result ≡ W.Weighing.ops.times (slice_index_or weights.now place W.Weighing.ops.zero) weight }
{
    W::times(weights[place], weight)
}

// Adds to a symbol's weight in a cell.
pub(crate) fn add<W: Weighing>(
    weights: &mut [W::Value],
    symbols: usize,
    cell: usize,
    symbol: u8,
    more: W::Value,
)
    requires symbol { symbol < symbols }
    requires room { cell + symbols ≤ length weights.old }
    ensures { Added W.Weighing.ops symbols cell (λ x. (if nat_eq symbol x then more else W.Weighing.ops.zero)) weights.old weights.new }
{
    let at = cell + symbol as usize;
    let sum = W::plus(weights[at], more);
    weights[at] = sum;
}
