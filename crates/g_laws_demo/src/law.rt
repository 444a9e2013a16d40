//! The script of a demonstration is valid.
ghost use Rattle.g_laws_demo.specs.GoodScript.{IsGood};

/// Every line of a demonstration's script of up to 1,000 rounds is a valid line of a script.
pub fn the_script_is_good()
    ensures { IsGood }
{}
