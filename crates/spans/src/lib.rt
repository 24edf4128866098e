// Spans of numbers, each against the length of its table.
#![tactic(auto)]

ghost use Rattle.std.specs.Prelude.{◌≡◌};
ghost use Rattle.model.specs.Span.{emptyb, growsb, holdsb, withinb};

use model::node::Span;

// Has the span no number?
pub fn empty(span: Span) -> bool
    ensures { result ≡ emptyb span }
{
    span.end <= span.start
}

// Does the span end within a table of this length?
pub fn within(table: usize, span: Span) -> bool
    ensures { result ≡ withinb table span }
{
    span.end as usize <= table
}

// Is the number in the span, and the span within its table?
pub fn holds(table: usize, span: Span, i: u8) -> bool
    ensures { result ≡ holdsb table span i }
{
    let inside = (span.start <= i) & (i < span.end);
    within(table, span) & inside
}

// Can the span grow by this number?
pub fn grows(table: usize, span: Span, i: u8) -> bool
    ensures { result ≡ growsb table span i }
{
    let next = i == span.end;
    within(table, span) & ((i as usize) < table) & (empty(span) | next)
}
