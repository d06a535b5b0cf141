// What small programs print, and how they end.
ghost use Rattle.std.specs.Prelude.{◌≡◌, [], ◌∷◌, codes, negsuc, option_map, slice_get, Some};
ghost use Rattle.cb_plain.specs.Updates.{object_at};
ghost use Rattle.cb_machine.specs.Computing.{divide_message};
ghost use Rattle.cb_machine.specs.Initialising.{own_statics};
ghost use Rattle.cb_machine.specs.Library as library;
ghost use Rattle.cb_machine.specs.Runs.{at, outcome};
ghost use Rattle.cb_machine.specs.Steps.{request};
ghost use Rattle.cb_machine.specs.Small.{class_names, deep, divides, enumerates, exits, fails, field_names, grids, hello, identity, machine, refuses, returns, shallow, static_names, switches, throws};
ghost use Rattle.cb_machine.specs.declared.outcome.Outcome.TheVariants.{Exited, Returned, Running, Uncaught};

/// Runs that return: after three steps of initialisation and the entry of `main`, a step for each instruction.
pub fn small_runs()
    ensures running { outcome (at (machine returns) [] [] 4) ≡ Running }
    ensures returned { outcome (at (machine returns) [] [] 5) ≡ Returned }
    ensures printed_early { (at (machine hello) [] [] 7).printed ≡ codes "Hello\n" }
    ensures not_ended { outcome (at (machine hello) [] [] 7) ≡ Running }
    ensures ended { outcome (at (machine hello) [] [] 8) ≡ Returned }
    ensures identity { (at (machine identity) [] [] 30).printed ≡ codes "4\n4\ntrue\n" }
    ensures arithmetic { (at (machine divides) [] [] 40).printed ≡ codes "/ by zero\n-2147483648\n0\n3105\n" }
{}

/// A switch on a string (the text itself, another of the same hash, and one of another hash), and an enum.
pub fn small_switches()
    ensures same { (at (machine switches) (codes "ab" ∷ []) [] 40).printed ≡ codes "1\n" }
    ensures same_hash { (at (machine switches) (codes "bC" ∷ []) [] 40).printed ≡ codes "0\n" }
    ensures enumerated { (at (machine enumerates) [] [] 120).printed ≡ codes "1\n2\n" }
    ensures other { (at (machine switches) (codes "ba" ∷ []) [] 40).printed ≡ codes "0\n" }
{}

/// What is asked for: of an array of arrays, both of the greatest size, so many words at the site of each dimension, as far as is counted.
pub fn small_requests()
    ensures { request (machine grids) (at (machine grids) [] [] 10)
        ≡ record { site = 33; words = 2147483650 } ∷ record { site = 34; words = 1099511627776 } ∷ [] }
{}

/// That the numbers which the definitions use are those of the library: its classes, the slots of their fields, the streams of System,
/// and the text of a division by zero.
pub fn numbers_as_said()
    ensures classes { class_names (library.cloneable ∷ library.string ∷ library.system ∷ library.integer ∷ library.long ∷ library.character ∷ library.boolean ∷ library.error ∷ [])
        ≡ codes "java/lang/Cloneable" ∷ codes "java/lang/String" ∷ codes "java/lang/System" ∷ codes "java/lang/Integer" ∷ codes "java/lang/Long" ∷ codes "java/lang/Character" ∷ codes "java/lang/Boolean" ∷ codes "java/lang/Error" ∷ [] }
    ensures string { field_names library.string ≡ codes "value" ∷ [] }
    ensures builder { field_names 9 ≡ codes "value" ∷ codes "count" ∷ [] }
    ensures class { field_names 10 ≡ codes "number" ∷ [] }
    ensures enum_constant { field_names 20 ≡ codes "name" ∷ codes "ordinal" ∷ [] }
    ensures throwable { field_names 22 ≡ codes "message" ∷ codes "cause" ∷ codes "suppressed" ∷ [] }
    ensures boxes { field_names library.integer ∷ field_names library.long ∷ field_names library.character ∷ field_names library.boolean ∷ []
        ≡ (codes "value" ∷ []) ∷ (codes "value" ∷ []) ∷ (codes "value" ∷ []) ∷ (codes "value" ∷ []) ∷ [] }
    ensures streams { static_names (machine returns).program (own_statics (machine returns).program library.system) ≡ codes "out" ∷ codes "in" ∷ [] }
    ensures message { slice_get (machine returns).program.constants divide_message ≡ Some (codes "/ by zero") }
{}

/// Runs in which something is thrown.
pub fn small_failures()
    ensures caught { (at (machine refuses) [] [] 120).printed ≡ codes "java.lang.NegativeArraySizeException\njava.lang.ClassCastException\n" }
    ensures uncaught { outcome (at (machine throws) [] [] 40) ≡ Uncaught 4 }
    ensures its_class { option_map (λ object. object.kind) (object_at (at (machine throws) [] [] 40) 4) ≡ Some 24 }
    ensures bad_class { (at (machine fails) [] [] 120).printed ≡ codes "java.lang.ExceptionInInitializerError\njava.lang.NoClassDefFoundError\n" }
    ensures deep { (at (shallow deep) [] [] 60).printed ≡ codes "deep\n" }
    ensures exited { outcome (at (machine exits) [] [] 10) ≡ Exited (negsuc 0) }
{}
