//! Worked examples: what the definitions say of two short texts. Each function does nothing.

ghost use Rattle.std.specs.Prelude.{◌≡◌, [], ◌∷◌, map, Some};
ghost use Rattle.std.specs.List.{AllZip};
ghost use Rattle.vs_types.specs.declared.addresses.depth.Depth.TheVariants.{Four};
ghost use Rattle.nr_script.specs.Examples.{map_it, resolve_it, short_lines, short_script, two_spaces, two_steps};
ghost use Rattle.nr_script.specs.Lines.{lines, Says};
ghost use Rattle.nr_script.specs.Script.{IsBadLine, IsScript};
ghost use Rattle.nr_script.specs.declared.script.Script.{Script};

/// A script of six lines. Thread 1 asks something, so there are two threads; the fifth line is the first that is a step.
pub fn short_script_is_read()
    ensures says { AllZip (Says Four) (lines short_script) short_lines }
    ensures script { (script : Script) → script.threads ≡ 2
        → map (λ list. list.items) script.requests.items ≡ (map_it ∷ []) ∷ (resolve_it ∷ []) ∷ []
        → script.steps.items ≡ two_steps → script.first_step ≡ Some 5
        → IsScript Four short_script script }
{}

/// Two spaces side by side part no words of a form, so that the second line is bad; the third is not looked at.
pub fn two_spaces_are_a_bad_line()
    ensures { IsBadLine Four two_spaces 2 }
{}
