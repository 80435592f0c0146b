//! Laws of whole texts.
ghost use Rattle.text_laws.specs.Shown.{ShownComesBack};

/// The text of a trace that bytes spell means those bytes, where all of them are shown, with the
/// places of steps or without.
#[tactic(auto, using(crate::proofs::Spelled::shown_comes_back))]
pub fn shown_comes_back()
    ensures { ShownComesBack }
{}
