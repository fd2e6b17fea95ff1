//! The paths of modules that are text.

ghost use Rattle.std.specs.Prelude.{◌≡◌};
ghost use Rattle.wat_asm.specs.Paths.{is_text_path};

/// Returns whether the path ends in `.wat`: then the file of a module is text.
#[tactic(auto, using(std::proofs::lemmas::Str::Pattern::ends_text))]
pub fn is_text_path(path: &str) -> bool
    ensures { result ≡ is_text_path path.now }
{
    path.ends_with(".wat")
}
