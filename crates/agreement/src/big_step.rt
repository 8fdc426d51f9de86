//! What expressions, statements and calls do is what the rules of order, control and calls say: each law is the contract of a function that does nothing.
//! The functions count fuel, and the rules do not: with fuel for the turns that are left both say the same.
ghost use Rattle.std.specs.Prelude.{◌≡◌, ◌≤◌, ◌↔◌, ℕ, List};
ghost use Rattle.awk_values.specs.declared.value.Value.{Value};
ghost use Rattle.awk_grammar.specs.Trees.{Tree, Trees, Plain, Stmt, Stmts, Item};
ghost use Rattle.sem_scripts.specs.Names.{Name, Resolved, Scope};
ghost use Rattle.sem_scripts.specs.ScriptState.{Local, State, Outcome, go_on, spend};
ghost use Rattle.sem_scripts.specs.Steps.{Place};
ghost use Rattle.sem_scripts.specs.Meaning.{value_of, values_of, key_of, place_of, passed};
ghost use Rattle.sem_scripts.specs.Statements.{Flow, plain_done, done_by, all_done, called};
ghost use Rattle.sem_scripts.specs.Items.{items_done, begun, ended};
ghost use Rattle.sem_scripts.specs.ScriptRun.{Ending, Setting, resolved_run};
ghost use Rattle.agreement.specs.BigStep.Items.{DoesItems, AtBegin, AtEnd, DoesEdge};
ghost use Rattle.agreement.specs.BigStep.Rules.{Evaluates, EvaluatesAll, GivesKey, Finds, Passes, DoesPlain, Does, DoesAll, IsCalled};
ghost use Rattle.agreement.specs.BigStep.Runs.{Ends};

/// An expression has an outcome by the rules exactly if that is what is computed; so have its operands, its subscripts, its place and the arguments of a
/// call.
pub fn expressions_follow_rules()
    ensures value { (scope : Scope) (n : ℕ) (t : Tree) (s : State) (o : Outcome Value) → s.turns ≤ n
        → Evaluates scope t s o ↔ (value_of scope n (called scope.script n) t s ≡ o) }
    ensures list { (scope : Scope) (n : ℕ) (ts : Trees) (s : State) (o : Outcome (List Value))
        → s.turns ≤ n
        → EvaluatesAll scope ts s o ↔ (values_of scope n (called scope.script n) ts s ≡ o) }
    ensures key { (scope : Scope) (n : ℕ) (ts : Trees) (s : State) (o : Outcome Value) → s.turns ≤ n
        → GivesKey scope ts s o ↔ (key_of scope n (called scope.script n) ts s ≡ o) }
    ensures place { (scope : Scope) (n : ℕ) (t : Tree) (s : State) (o : Outcome Place) → s.turns ≤ n
        → Finds scope t s o ↔ (place_of scope n (called scope.script n) t s ≡ o) }
    ensures arguments { (scope : Scope) (n : ℕ) (ps : List Name) (ts : Trees) (s : State)
        (o : Outcome (List Local)) → s.turns ≤ n
        → Passes scope ps ts s o ↔ (passed scope n (called scope.script n) ps ts s ≡ o) }
{}

/// So has a statement, and a list of statements.
pub fn statements_follow_rules()
    ensures plain { (scope : Scope) (n : ℕ) (p : Plain) (s : State) (o : Outcome (Unit {0}))
        → s.turns ≤ n
        → DoesPlain scope p s o ↔ (plain_done scope n (called scope.script n) p s ≡ o) }
    ensures one { (scope : Scope) (n : ℕ) (b : Stmt) (s : State) (o : Outcome Flow) → s.turns ≤ n
        → Does scope b s o ↔ (done_by scope n (called scope.script n) b s ≡ o) }
    ensures all { (scope : Scope) (n : ℕ) (bs : Stmts) (s : State) (o : Outcome Flow) → s.turns ≤ n
        → DoesAll scope bs s o ↔ (all_done scope n (called scope.script n) bs s ≡ o) }
{}

/// So has a call of a function, with its turn.
pub fn calls_follow_rules()
    ensures { (script : Resolved) (n i : ℕ) (locals : List Local) (s : State) (o : Outcome Value)
        → s.turns ≤ n
        → IsCalled script i locals s o ↔ (go_on (spend s) (λ u. called script n i locals) ≡ o) }
{}

/// So have the items of a script for a record, and the actions of BEGIN and of END.
pub fn items_follow_rules()
    ensures items { (scope : Scope) (n i : ℕ) (items : List Item) (s : State) (o : Outcome Flow)
        → s.turns ≤ n
        → DoesItems scope i items s o ↔ (items_done scope n (called scope.script n) i items s ≡ o) }
    ensures begin { (scope : Scope) (n : ℕ) (items : List Item) (s : State) (o : Outcome Flow)
        → s.turns ≤ n
        → DoesEdge scope AtBegin items s o ↔ (begun scope n (called scope.script n) items s ≡ o) }
    ensures end { (scope : Scope) (n : ℕ) (items : List Item) (s : State) (o : Outcome Flow)
        → s.turns ≤ n
        → DoesEdge scope AtEnd items s o ↔ (ended scope n (called scope.script n) items s ≡ o) }
{}

/// A run ends by the rules exactly as it is computed.
pub fn runs_follow_rules()
    ensures { (script : Resolved) (setting : Setting) (turns : ℕ) (e : Ending)
        → Ends script setting turns e ↔ (resolved_run script setting turns ≡ e) }
{}
