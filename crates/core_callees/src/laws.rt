//! The laws, each as the contract of a function.
ghost use Rattle.std.specs.Prelude.{◌≡◌, ℕ, List, option_map};
ghost use Rattle.c_language.specs.declared.scope.Entry.{Entry};
ghost use Rattle.c_language.specs.Scopes.{Name};
ghost use Rattle.c_means.specs.declared.profile.Profile.{Profile};
ghost use Rattle.c_means.specs.Programs.{Function, function_named};
ghost use Rattle.c_means.specs.Runs.{Machine};
ghost use Rattle.core_programs.specs.Numberings.{Numbers, numbering_of};
ghost use Rattle.core_callees.specs.declared.numbered.FunctionNumber.{FunctionNumber};
ghost use Rattle.core_callees.specs.Known.{numbering_in};
ghost use Rattle.core_callees.specs.Knows.{Knows, known, table_of};
ghost use Rattle.core_callees.specs.Numbered.{numbers_in};

/// Does nothing. It promises the law: by what is known of a program, the calls of a function are what they are by the
/// numbers of the program's functions.
pub fn calls_are_those_of_the_program()
    ensures same { (m : Machine) (ns : Numbers) (f : Function) (profile : Profile) (offsets : List ℕ) (functions : List FunctionNumber) (first : ℕ) (watched : List Entry) →
        Knows m ns f profile offsets functions first watched → numbering_in (known profile offsets functions first watched) ≡ numbering_of m ns f }
{}

/// Does nothing. It promises that the table of a program's functions tells of each name whether a function has it, and
/// that function's number.
#[tactic(auto, using(crate::proofs::Programs::table_tells))]
pub fn table_tells_its_functions()
    ensures tells { (ns : Numbers) (fs : List Function) (name : Name) →
        numbers_in (table_of ns fs) name ≡ option_map (λ h. ns.source name) (function_named fs name) }
{}
