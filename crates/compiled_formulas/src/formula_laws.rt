//! Laws of the code of a formula.

ghost use Rattle.compiled_formulas.specs.Terms.{ExpressionsAreTerms, StepsAreSteps};
ghost use Rattle.compiled_formulas.specs.Environments.{ExpressionsAreNamed};
ghost use Rattle.compiled_formulas.specs.Inside.{FormulasAreEvaluatedInside, PairsAreEvaluatedInside};
ghost use Rattle.compiled_formulas.specs.Outside.{FormulasAreEvaluatedOutside, PairsAreEvaluatedOutside};
ghost use Rattle.compiled_formulas.specs.Writes.{WritesAreTasks};
ghost use Rattle.compiled_formulas.specs.Tasks.{ExpressionsAreSingle, SinglesAreTerms, ValuesAreTasks};

/// An expression as a formula is the same as evaluation's term of it: it has the same value, and the
/// same happens at its positions; and it names what the expression names.
pub fn expressions_are_formulas()
    // The formula of an expression has the term, and so the value, that evaluation has of it.
    ensures terms { ExpressionsAreTerms }
    // At the positions of an expression's formula the same happens as in its evaluation.
    ensures steps { StepsAreSteps }
    // The formula of a checked expression names only what can be named.
    ensures names { ExpressionsAreNamed }
{}

/// Outside pardo the code of a formula leaves its value in its register, and of a pair both values;
/// all that is shown of the program stays, and the key that is noted is evaluation's: that of the first
/// position at which anything is wrong.
pub fn formulas_are_evaluated_outside()
    // Outside pardo a formula's code leaves its value in its register and all else shown of the program, and notes what
    // its evaluation notes first.
    ensures formulas { FormulasAreEvaluatedOutside }
    // Outside pardo the code of a pair of formulas leaves both values in their registers.
    ensures pairs { PairsAreEvaluatedOutside }
{}

/// Inside pardo the code of a formula leaves its value in its register of each active processor, and of
/// a pair both values; the masks, the registers below, all uniform registers and the memory stay; and
/// the key that is noted is evaluation's: the least of the processors' own faults, and where the
/// rule doesn't share reads of their conflicts by position.
pub fn formulas_are_evaluated_inside()
    // Inside pardo a formula's code leaves its value in each active processor's register and all else shown, and notes
    // evaluation's least key, conflicts of reads included.
    ensures formulas { FormulasAreEvaluatedInside }
    // Inside pardo the code of a pair of formulas leaves each active processor both values in its registers.
    ensures pairs { PairsAreEvaluatedInside }
{}

/// Formulas as tasks: an expression's has no pair in it, one without pairs is its term, position by
/// position, and inside pardo its code notes what evaluation says of the task to get its value.
pub fn formulas_are_tasks()
    // The formula of an expression has no pair in it.
    ensures expressions { ExpressionsAreSingle }
    // In a formula without pairs the same happens as in its term, at as many positions.
    ensures singles { SinglesAreTerms }
    // Inside pardo the code of a formula without pairs notes what evaluation says of getting its value.
    ensures values { ValuesAreTasks }
{}

/// Inside pardo a write behind the code of its subscript and its value notes what evaluation says of the
/// task to write, conflicts of reads and of writes included; each cell gets what the rule gives for its
/// writers, and all else is as the code of the formulas leaves it.
pub fn writes_are_tasks()
    // Inside pardo a write behind its operands' code notes what evaluation says, conflicts included, gives each cell
    // what the rule gives, and leaves all else.
    ensures writes { WritesAreTasks }
{}
