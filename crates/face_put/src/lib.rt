// How answers are put to the front of lent slices: three numbers, why a load is refused or its rows, what a model needs, a task's bounds.
#![tactic(auto)]

ghost use Rattle.std.specs.Prelude.{◌≡◌, [], ◌∷◌, ◌≤◌, length};
ghost use Rattle.std.proofs.lemmas.List.Edits.{sets};
ghost use Rattle.face_put.specs.Put.{rows_numbers, needed_numbers, held_left};

use face_model::{Needed, Rows};
use table_put::{put2, put4};

// Three numbers to the front.
pub fn put3(out: &mut [u64], a: u64, b: u64, c: u64)
    requires { 3 ≤ length out.old }
    ensures { out.new ≡ sets out.old 0 (a ∷ b ∷ c ∷ []) }
{
    out[0] = a;
    out[1] = b;
    out[2] = c;
}

// Why a load is refused, or its rows, to the front.
pub fn put_rows(out: &mut [u64], rows: Rows)
    requires { 8 ≤ length out.old }
    ensures { out.new ≡ sets out.old 0 (rows_numbers rows) }
{
    put4(out, 0, rows.number, rows.place, rows.line, rows.questions);
    put4(out, 4, rows.patterns, rows.trees, rows.records, rows.values);
}

// A task's bounds after a load: its rows where it is done, else as they were.
pub fn keep_rows(held: &mut [u64], rows: Rows)
    requires { 5 ≤ length held.old }
    ensures { held.new ≡ held_left rows held.old }
{
    if rows.number == 0 {
        put4(
            held,
            0,
            rows.questions,
            rows.patterns,
            rows.trees,
            rows.records,
        );
        held[4] = rows.values;
    }
}

// The bounds of a task that holds nothing.
pub fn keep_nothing(held: &mut [u64])
    requires { 5 ≤ length held.old }
    ensures { held.new ≡ sets held.old 0 (0 ∷ 0 ∷ 0 ∷ 0 ∷ 0 ∷ []) }
{
    put4(held, 0, 0, 0, 0, 0);
    held[4] = 0;
}

// What a model needs, to the front.
pub fn put_needed(out: &mut [u64], needed: Needed)
    requires { 10 ≤ length out.old }
    ensures { out.new ≡ sets out.old 0 (needed_numbers needed) }
{
    put4(
        out,
        0,
        needed.number,
        needed.place,
        needed.line,
        needed.questions,
    );
    put4(
        out,
        4,
        needed.patterns,
        needed.trees,
        needed.records,
        needed.values,
    );
    put2(out, 8, needed.work, needed.width);
}
