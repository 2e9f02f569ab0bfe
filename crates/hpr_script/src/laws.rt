//! Laws of scripts.
ghost use Rattle.hpr_script.specs.ScriptGrammar.{OneScript};

/// Bytes spell at most one script.
pub fn one_script()
    ensures { OneScript }
{}
