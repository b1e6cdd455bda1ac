// A formula that is valued over a model: a valuer of nodes and a fixpoint iteration that call each other, over a function for each kind of node
// (valuer_maps); the token at a place says which.
ghost use Rattle.std.specs.Prelude.{◌≡◌, ◌*◌, get_or};
ghost use Rattle.valuer.specs.Values.{ModelOver};
ghost use Rattle.valuer.specs.Node.{SomeFormulaAt, round_limit, Node, Both, Iterated};
ghost use Rattle.valuer.specs.Unique.{ModelOver-prop};

use formula_tokens::{Token, token_at};
use valuer_maps::{Scope, Successors, combined, literals, same, start_of};

// A formula part, and a model over a lattice, whose transitions are listed.
#[derive(Clone, Copy)]
pub struct Valuation<'a> {
    pub successors: Successors<'a>,
    pub formula: &'a [u8],
    pub ghost over: { ModelOver successors.codes.now.words successors.lattice
        successors.model.bytes.now } by { ModelOver-prop successors.codes.now.words successors.lattice successors.model.bytes.now },
}

impl<'a> Valuation<'a> {
    // The most rounds that a fixpoint takes: each round that changes something moves some state's value along a chain.
    fn round_limit(&self) -> usize
        ensures { result ≡ round_limit self.now.successors.lattice self.now.successors.model.bytes.now }
    {
        self.successors.model.states() * (usize::from(self.successors.lattice.size) - 1)
    }

    // The formula at place `at`, whose variables have the maps of `scope`. Its values are written into out; the answer is the place after it.
    // `spare` is room for a map, lent since an array here would be one more for each level of nesting. That a formula stands at the place is a clause, of
    // this and of the two below: each call has a place of its own.
    #[cycle(iterate_node_second)]
    pub fn node(
        &self,
        at: usize,
        scope: &Scope,
        spare: &mut [u64; 64],
        out: &mut [u64; 64],
    ) -> usize
        requires { SomeFormulaAt self.now.formula.now at (get_or self.now.successors.model.bytes.now 1 0) }
        ensures { let s = self.now.successors in Node s.codes.now.words s.lattice s.model.bytes.now self.now.formula.now at
            scope.now.near.now scope.now.mid.now scope.now.far.now out.new result }
    {
        let s = &self.successors;
        let token = token_at(self.formula, at);
        let here = at + token.size();
        match token {
            Token::Bottom => out.fill(start_of(s.codes, s.lattice, true)),
            Token::Top => out.fill(start_of(s.codes, s.lattice, false)),
            Token::Literal { p, negated } => literals(s.codes, &s.model, negated, p, out),
            Token::Variable(v) => out.copy_from_slice(scope.of(v)),
            Token::Two { or } => {
                let after = self.node(here, scope, spare, out);
                return self.second(after, or, scope, spare, out);
            }
            Token::Next { all } => {
                let next = self.node(here, scope, spare, out);
                *spare = *out;
                s.next_values(all, spare, out);
                return next;
            }
            Token::Fixpoint { least } => {
                let start = start_of(s.codes, s.lattice, least);
                return self.iterate(here, start, scope, spare, out);
            }
            Token::End | Token::Broken => {}
        }
        // a node without parts ends here
        here
    }

    // The second formula of or or and (`or` says which, as in the definition Both), at place `at`: its map is combined with that of the first, which
    // is in `out`. The array that this takes stands here and is not inlined, so that other nodes have none: in the frame of `node` it would be one
    // more for each level of nesting.
    #[inline(never)]
    #[cycle(iterate_node_second)]
    fn second(
        &self,
        at: usize,
        or: bool,
        scope: &Scope,
        spare: &mut [u64; 64],
        out: &mut [u64; 64],
    ) -> usize
        requires { SomeFormulaAt self.now.formula.now at (get_or self.now.successors.model.bytes.now 1 0) }
        ensures { let s = self.now.successors in Both s.codes.now.words s.lattice s.model.bytes.now self.now.formula.now at or
            scope.now.near.now scope.now.mid.now scope.now.far.now out.old out.new result }
    {
        let mut y = [0u64; 64];
        let next = self.node(at, scope, spare, &mut y);
        *spare = *out;
        combined(or, self.successors.model.states(), spare, &y, out);
        next
    }

    // A fixpoint whose body stands at a place: from one value at all states on, until a round changes nothing or no round is left. Not inlined, as
    // `second`.
    #[inline(never)]
    #[cycle(iterate_node_second)]
    fn iterate(
        &self,
        body: usize,
        start: u64,
        scope: &Scope,
        spare: &mut [u64; 64],
        out: &mut [u64; 64],
    ) -> usize
        requires { SomeFormulaAt self.now.formula.now body (get_or self.now.successors.model.bytes.now 1 0) }
        ensures { let s = self.now.successors in Iterated s.codes.now.words s.lattice s.model.bytes.now self.now.formula.now body
            scope.now.near.now scope.now.mid.now start out.new result }
    {
        let n = self.successors.model.states();
        let mut current = [start; 64];
        for _ in 0..self.round_limit() {
            let next = self.node(body, &under(&current, scope), spare, out);
            if same(n, out, &current) {
                return next;
            }
            current = *out;
        }
        // no round is left: the body is worked once more for the place after it alone
        let next = self.node(body, &under(&current, scope), spare, out);
        *out = current;
        next
    }
}

// The maps of the variables within one more binder, whose map is `near`.
fn under<'a, 'b>(near: &'b [u64; 64], scope: &Scope<'a>) -> Scope<'b>
where
    'a: 'b,
    ensures { (result.near.now ≡ near.now) × (result.mid.now ≡ scope.now.near.now) × (result.far.now ≡ scope.now.mid.now) }
{
    Scope {
        near,
        mid: scope.near,
        far: scope.mid,
    }
}
