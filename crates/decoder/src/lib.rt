// Decodes words over any field, given a point for each place. All work stands in arrays of the caller.
#![tactic(auto)]

ghost use Rattle.std.specs.Prelude.{MatchResult, length};
ghost use Rattle.decoder.specs.Decoding.{Proposal, NoneNear};

use field::Field;

mod elimination;
mod errors;
mod received;
mod roots;
mod window;

pub use elimination::Row;
pub use received::Received;
pub use roots::evaluate;

// Room for the decoding of words of up to 544 symbols with a reach of up to 15. What it holds does not matter.
// Fixed arrays, since there is no heap: `values` and `found` have room for all places, `located` and `terms` for the reach.
#[derive(Drop)]
pub struct Work<F> {
    pub rows: [Row<F>; 16],
    pub values: [F; 544],
    pub found: [usize; 544],
    pub located: [F; 16],
    pub terms: [F; 16],
}

// There is no codeword within reach of the word.
#[derive(Clone, Copy, Debug, PartialEq, Eq)]
pub struct OutOfReach;

impl<F: Field + Copy> Work<F> {
    // The one word that can be a codeword within reach of the word received, or that there is none. Whether it is a codeword
    // is not checked. It stands in the room for values; nothing of the caller's is written.
    pub fn propose(&mut self, received: &Received<'_, F>) -> Result<&[F], OutOfReach>
        ensures { MatchResult result (λ out. Proposal F.Adds.group F.Field.ring received.now.points.now (length received.now.symbols.now) received.now.reach received.now.symbols.now out.now)
            (λ e. NoneNear F.Adds.group F.Field.ring received.now.points.now (length received.now.symbols.now) received.now.reach received.now.symbols.now) }
    {
        let syndromes = received.syndromes;
        let locator = elimination::locate(&mut self.rows[..received.reach + 1], syndromes);
        let found = roots::find(
            &locator.coefficients[..locator.degree + 1],
            received.points,
            &mut self.values,
            &mut self.found,
        );
        let m = found.len();
        if m > received.reach {
            return Err(OutOfReach);
        }
        let located = &mut self.located[..m];
        errors::gather(located, received.points, found);
        let values = &mut self.values;
        let proposal = &mut values[..received.symbols.len()];
        proposal.copy_from_slice(received.symbols);
        errors::subtract(
            proposal,
            &syndromes[..m],
            &mut self.terms[..m],
            located,
            found,
        );
        Ok(proposal)
    }
}
