//! Lists of flags.

ghost use Rattle.std.specs.Prelude.{◌≡◌, ◌≤◌, length};
ghost use Rattle.control.specs.Machine.{all_set, count_set, either, none_set};

/// Counts the flags that are set.
pub fn count_set(flags: &[bool]) -> usize
    ensures count { result ≡ count_set flags.now }
    ensures small { result ≤ length flags.now }
{
    flags.iter().filter(|flag| **flag).count()
}

pub fn are_all_set(flags: &[bool]) -> bool
    ensures { result ≡ all_set flags.now }
{
    for flag in flags {
        if !*flag {
            return false;
        }
    }
    true
}

/// Clears all flags.
pub fn clear(flags: &mut [bool])
    ensures { flags.new ≡ none_set flags.old }
{
    for flag in flags.iter_mut() {
        *flag = false;
    }
}

/// Makes waiting workers alive.
pub fn join(alive: &mut [bool], waiting: &[bool])
    requires { length waiting.now ≡ length alive.old }
    ensures { alive.new ≡ either alive.old waiting.now }
{
    for i in 0..alive.len() {
        alive[i] = alive[i] || waiting[i];
    }
}
