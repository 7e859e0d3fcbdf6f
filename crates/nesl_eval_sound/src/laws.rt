//! Laws over definitions: an expression that has a type never gets stuck, and each line keeps the bindings well typed.
ghost use Rattle.std.specs.Prelude.{ℕ, List};
ghost use Rattle.nesl_types.specs.declared.bindings.Top.{Top};
ghost use Rattle.nesl_eval_meaning.specs.Names as evaluated;
ghost use Rattle.nesl_eval_sound.specs.Functions.{ScalarsKeepTypes, SequencesKeepTypes};
ghost use Rattle.nesl_eval_sound.specs.Sound.{TypesAreKept};
ghost use Rattle.nesl_eval_sound.specs.Lines.{NothingIsSound, VariablesStaySound, FunctionsStaySound};
ghost use Rattle.nesl_eval_sound.specs.Lines.{DatatypesStaySound};
ghost use Rattle.nesl_eval_sound.specs.Inferred.{SoundIsClosed, InferredTypesAreKept, InferredVariablesStaySound};
ghost use Rattle.nesl_eval_sound.specs.Inferred.{InferredFunctionsStaySound, WrittenDatatypesStaySound};
ghost use Rattle.nesl_eval_sound.specs.Worked.{IdentityIsSound, PointIsSound, NestedIsSound, GrowingIsSound};

/// No function of scalars is stuck at an argument of its type, and its value has the type of its result.
pub fn scalars_keep_types()
    ensures { ScalarsKeepTypes }
{}

/// No function on sequences is stuck at an argument of its type, and its value has the type of its result.
pub fn sequences_keep_types()
    ensures { SequencesKeepTypes }
{}

/// If the bindings are well typed, an expression that has a type never gets stuck, and its value has its type. The
/// bindings have any payload `P` besides their types.
pub fn evaluation_keeps_types<P>()
    ensures { (context : List (List ℕ × Top × P)) → TypesAreKept context }
{}

/// Each line that binds a name keeps the bindings well typed, and no bindings at all are well typed. `seen` gives what
/// a name means by its payload, which may be any.
pub fn lines_keep_types<P>()
    ensures nothing { (seen : Top → P → evaluated.Top) → NothingIsSound seen }
    ensures variables { (seen : Top → P → evaluated.Top) → VariablesStaySound seen }
    ensures functions { (seen : Top → P → evaluated.Top) → FunctionsStaySound seen }
    ensures datatypes { (seen : Top → P → evaluated.Top) → DatatypesStaySound seen }
{}

/// Each line keeps the bindings well typed if it binds what is inferred: a principal type without variables, a
/// principal scheme, or a written type. Inference can begin, since sound bindings are closed.
pub fn inferred_lines_keep_types<P>()
    ensures closed { (seen : Top → P → evaluated.Top) → SoundIsClosed seen }
    ensures outcomes { (seen : Top → P → evaluated.Top) → InferredTypesAreKept seen }
    ensures variables { (seen : Top → P → evaluated.Top) → InferredVariablesStaySound seen }
    ensures functions { (seen : Top → P → evaluated.Top) → InferredFunctionsStaySound seen }
    ensures datatypes { (seen : Top → P → evaluated.Top) → WrittenDatatypesStaySound seen }
{}

/// Such bindings exist: `function id(x) = x;` keeps them well typed, and its calls at two types are never stuck.
pub fn identity_is_sound()
    ensures { IdentityIsSound }
{}

/// `datatype point (int, int);` keeps them well typed, and a record that is made and taken apart is never stuck.
pub fn point_is_sound()
    ensures { PointIsSound }
{}

/// A nested apply-to-each, `{{a + a : a in v} : v in [[1, 2], [3]]}`, is never stuck.
pub fn nested_is_sound()
    ensures { NestedIsSound }
{}

/// The call of a function whose body has types of more than 4,096 nodes there is never stuck either.
pub fn growing_is_sound()
    ensures { GrowingIsSound }
{}
