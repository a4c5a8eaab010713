ghost use Rattle.std.specs.Prelude.{◌≡◌, ◌++◌, OnOk, replicate, slice_get, string_bytes};
ghost use Rattle.std.specs.Option.{option_copied};
ghost use Rattle.lwkt_report.specs.Report.{numbered_lines};
ghost use Rattle.lwkt_told.specs.Called.{called, cell_called, is_thread, place_of, program_of, thread_number, thread_name, thread_called, variable_of, variable_called, comma, mode_told, ref_part, longest, width_of};
ghost use Rattle.lwkt_text.specs.Naming.{cells_of, variables_of};

use lwkt_base::memory::{Piece, push_str, put};
use lwkt_base::{Mode, OutOfMemory, Ref, ThreadId, TokId};
use lwkt_code::Step;
use lwkt_script::Script;
use lwkt_text::{Name, Names, Variable};

/// What the thing of a number is called in a list of names, as a piece of a text.
#[derive(Clone, Copy)]
pub struct Called<'a> {
    /// The names.
    pub names: &'a [Name],
    /// The number.
    pub number: usize,
}

/// What a thread is called, as a piece of a text.
#[derive(Clone, Copy)]
pub struct ThreadCalled<'a> {
    /// The names of the text.
    pub names: &'a Names,
    /// The thread.
    pub id: ThreadId,
}

/// What a cell is called, with its token, as a piece of a text.
#[derive(Clone, Copy)]
pub struct CellCalled<'a> {
    /// The names of the text.
    pub names: &'a Names,
    /// The token.
    pub tok: TokId,
    /// The number of the cell there.
    pub cell: u8,
}

/// What a variable of a thread is called, as a piece of a text.
#[derive(Clone, Copy)]
pub struct VariableCalled<'a> {
    /// The names of the text.
    pub names: &'a Names,
    /// The thread.
    pub id: ThreadId,
    /// The number of the variable there.
    pub number: u8,
}

impl<'a> Piece for Called<'a> {
    ghost text = { λ c. called c.names.now c.number };

    fn put_on(self, out: &mut String) -> Result<(), OutOfMemory> {
        show_called(self.names, self.number, out)
    }
}

impl<'a> Piece for ThreadCalled<'a> {
    ghost text = { λ c. thread_called c.names.now c.id };

    fn put_on(self, out: &mut String) -> Result<(), OutOfMemory> {
        show_thread_called(self.names, self.id, out)
    }
}

impl<'a> Piece for VariableCalled<'a> {
    ghost text = { λ c. variable_called c.names.now c.id c.number };

    fn put_on(self, out: &mut String) -> Result<(), OutOfMemory> {
        show_variable(self.names, self.id, self.number, out)
    }
}

impl<'a> Piece for CellCalled<'a> {
    ghost text = { λ c. cell_called c.names.now c.tok c.cell };

    fn put_on(self, out: &mut String) -> Result<(), OutOfMemory> {
        show_cell(self.names, self.tok, self.cell, out)
    }
}

/// Appends what the thing of a number is called in a list of names.
pub fn show_called(names: &[Name], n: usize, out: &mut String) -> Result<(), OutOfMemory>
    ensures { OnOk result (string_bytes out.new ≡ string_bytes out.old ++ called names.now n) }
{
    match names.get(n) {
        Some(name) if !name.as_str().is_empty() => push_str(out, name.as_str()),
        _ => put(out, n),
    }
}

/// The names of a token's cells.
pub fn cells_of(names: &Names, tok: usize) -> &[Name]
    ensures { result.now ≡ cells_of names.now (record { 0 = tok }) }
{
    match names.cells.as_slice().get(tok) {
        Some(cells) => cells.as_slice(),
        None => &[],
    }
}

/// Appends what a cell is called, with its token.
pub(crate) fn show_cell(
    names: &Names,
    tok: TokId,
    cell: u8,
    out: &mut String,
) -> Result<(), OutOfMemory>
    ensures { OnOk result (string_bytes out.new ≡ string_bytes out.old ++ cell_called names.now tok cell) }
{
    show_called(names.tokens.as_slice(), tok.0 as usize, out)?;
    push_str(out, ".")?;
    show_called(cells_of(names, tok.0 as usize), cell as usize, out)
}

/// Whether two threads are the same.
pub(crate) fn is_thread(one: ThreadId, other: ThreadId) -> bool
    ensures { result ≡ is_thread one other }
{
    one.cpu.0 == other.cpu.0 && one.thread == other.thread
}

// The place of a thread in a list.
fn place_of(id: ThreadId, ids: &[ThreadId]) -> Option<usize>
    ensures { result ≡ place_of id ids.now }
{
    for (i, one) in ids.iter().enumerate() {
        if is_thread(*one, id) {
            return Some(i);
        }
    }
    None
}

/// The steps of a thread; none where it isn't named.
pub(crate) fn program_of<'a>(names: &Names, script: &'a Script, id: ThreadId) -> &'a [Step]
    ensures { result.now ≡ program_of names.now script.entry.now id }
{
    let Some(i) = place_of(id, names.ids.as_slice()) else {
        return &[];
    };
    match script.threads.as_slice().get(i) {
        Some(spec) => spec.code.steps(),
        None => &[],
    }
}

// The name of a thread, if it has one.
fn thread_name(names: &Names, id: ThreadId) -> Option<&Name>
    ensures { option_copied result ≡ thread_name names.now id }
{
    let i = place_of(id, names.ids.as_slice())?;
    names.threads.as_slice().get(i)
}

/// Appends what a thread is called.
pub(crate) fn show_thread_called(
    names: &Names,
    id: ThreadId,
    out: &mut String,
) -> Result<(), OutOfMemory>
    ensures { OnOk result (string_bytes out.new ≡ string_bytes out.old ++ thread_called names.now id) }
{
    match thread_name(names, id) {
        Some(name) => push_str(out, name.as_str()),
        None => put(out, (id.cpu.0, ".", id.thread)),
    }
}

// The variable of a number of the thread of a place.
fn variable_at(vars: &[Variable], i: usize, n: usize) -> Option<&Variable>
    ensures { option_copied result ≡ slice_get (variables_of i vars.now) n }
{
    let mut left = n;
    for variable in vars {
        if variable.thread == i {
            if left == 0 {
                return Some(variable);
            }
            left -= 1;
        }
    }
    None
}

// The variable of a number of a thread, if it has a name.
fn variable_of(names: &Names, id: ThreadId, n: usize) -> Option<&Variable>
    ensures { option_copied result ≡ variable_of names.now id n }
{
    let i = place_of(id, names.ids.as_slice())?;
    variable_at(names.vars.as_slice(), i, n)
}

// Appends what a variable of a thread is called.
fn show_variable(
    names: &Names,
    id: ThreadId,
    number: u8,
    out: &mut String,
) -> Result<(), OutOfMemory>
    ensures { OnOk result (string_bytes out.new ≡ string_bytes out.old ++ variable_called names.now id number) }
{
    match variable_of(names, id, usize::from(number)) {
        Some(variable) => push_str(out, variable.name.as_str()),
        None => put(out, ("v", number)),
    }
}

// What stands before an item of a list.
fn comma(i: usize) -> &'static str
    ensures { result.now ≡ comma i }
{
    if i == 0 { " " } else { ", " }
}

fn mode_words(mode: Mode) -> &'static str
    ensures { result.now ≡ mode_told mode }
{
    match mode {
        Mode::Exclusive => "",
        Mode::Shared => " shared",
    }
}

// Appends a reference, and what stands before it.
fn show_ref(names: &Names, i: usize, r: Ref, out: &mut String) -> Result<(), OutOfMemory>
    ensures { OnOk result (string_bytes out.new ≡ string_bytes out.old ++ ref_part names.now i r) }
{
    push_str(out, comma(i))?;
    show_called(names.tokens.as_slice(), r.tok.0 as usize, out)?;
    push_str(out, mode_words(r.mode))
}

/// Appends references, each behind a blank or a comma.
pub(crate) fn show_refs(names: &Names, refs: &[Ref], out: &mut String) -> Result<(), OutOfMemory>
    ensures { OnOk result (string_bytes out.new ≡ string_bytes out.old ++ numbered_lines (ref_part names.now) 0 refs.now) }
{
    for (i, r) in refs.iter().enumerate() {
        show_ref(names, i, *r, out)?;
    }
    Ok(())
}

// The length of the longest of some names.
fn longest(names: &[Name]) -> usize
    ensures { result ≡ longest names.now }
{
    let mut most = 0;
    for name in names {
        most = most.max(name.as_str().len());
    }
    most
}

/// How wide the column of names is.
pub fn width_of(names: &Names) -> usize
    ensures { result ≡ width_of names.now }
{
    let tokens = longest(names.tokens.as_slice());
    let messages = longest(names.messages.as_slice());
    let threads = longest(names.threads.as_slice());
    tokens.max(messages.max(threads))
}

/// Appends blanks, so many.
pub(crate) fn show_blanks(count: usize, out: &mut String) -> Result<(), OutOfMemory>
    ensures { OnOk result (string_bytes out.new ≡ string_bytes out.old ++ replicate count 32) }
{
    for _blank in 0..count {
        push_str(out, " ")?;
    }
    Ok(())
}
