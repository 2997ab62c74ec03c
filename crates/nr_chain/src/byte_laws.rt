//! Laws of chains as bytes, and of touches. Each function does nothing: its clauses say what holds of all bytes.

ghost use Rattle.std.specs.Prelude.{◌≡◌, ◌++◌, ℕ, List, Option, None, IfSome};
ghost use Rattle.nr_trace.specs.declared.refusals.fault.Fault.{Fault};
ghost use Rattle.nr_chain.specs.Bytes.{GoesOnSo};
ghost use Rattle.nr_trace.specs.Run.{Run, IsOrderly};
ghost use Rattle.nr_chain.specs.Headline.{IsRightChain};
ghost use Rattle.nr_chain.specs.Parts.{run_behind, ComesTo, MayFollow};

/// A chain whose audit finds no fault is right with the orders that are found.
pub fn chains_without_a_fault_are_right()
    ensures { (bytes : List ℕ) (orders : List (List ℕ))
        → GoesOnSo None bytes orders None → IsRightChain bytes orders }
{}

/// What is found of bytes is one thing: the orders of so many segments, and how the chain ends.
pub fn one_thing_is_found()
    ensures { (before : Option Run) (bytes : List ℕ) (orders others : List (List ℕ))
        (found other : Option Fault) → GoesOnSo before bytes orders found
        → GoesOnSo before bytes others other → (orders ≡ others) × (found ≡ other) }
{}

/// Two parts of a chain are given, each right by itself. The second has the layout of the first and begins with the pages of the space at
/// its end. They are right as one, with the orders one after the other. Where the second gives memory away, no address may still be found
/// to look otherwise behind the first. What the whole has come to is what the second has come to, so that a third part may follow: and so
/// of any number of parts, each of which may be judged elsewhere.
pub fn parts_of_bytes_are_right_as_one()
    ensures comes { (before : Option Run) (bytes : List ℕ) (orders : List (List ℕ))
        → GoesOnSo before bytes orders None → (end : Run) × ComesTo before bytes end }
    ensures goes_on { (before : Option Run) (front back : List ℕ) (orders others : List (List ℕ))
        (end : Run) → IfSome before (λ run. IsOrderly run.trace)
        → GoesOnSo before front orders None → ComesTo before front end
        → GoesOnSo None back others None → MayFollow end back
        → GoesOnSo before (front ++ back) (orders ++ others) None }
    ensures ends { (before : Option Run) (front back : List ℕ) (end last : Run)
        → ComesTo before front end → ComesTo None back last → MayFollow end back
        → ComesTo before (front ++ back) (run_behind end last) }
    ensures right { (front back : List ℕ) (orders others : List (List ℕ)) (end : Run)
        → GoesOnSo None front orders None → ComesTo None front end
        → GoesOnSo None back others None → MayFollow end back
        → IsRightChain (front ++ back) (orders ++ others) }
{}
