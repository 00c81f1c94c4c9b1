// Arrays that are read at any number.
#![tactic(auto)]

ghost use Rattle.std.specs.Prelude.{◌≡◌, true, false, get_or};
ghost use Rattle.tables.specs.Inner.{marked};

// Entry i of a table, or `rest` past its end.
pub fn entry<T: Copy>(t: &[T], i: usize, rest: T) -> T
    ensures { result ≡ get_or t.now i rest }
{
    t.get(i).copied().unwrap_or(rest)
}

// Whether the flag of i is set; past the end none is.
pub fn flag(t: &[bool], i: usize) -> bool
    ensures { result ≡ get_or t.now i false }
{
    entry(t, i, false)
}

// Sets the flag of i where `on` says so and there is such a flag.
pub fn mark(t: &mut [bool], on: bool, i: usize)
    ensures { t.new ≡ marked on i t.old }
{
    if on {
        if i < t.len() {
            t[i] = true;
        }
    }
}
