// One attempt at a signature: its nonces are drawn, committed to, and closed with a challenge.
#![tactic(auto)]

ghost use Rattle.std.specs.Prelude.{◌≡◌, ◌+◌, ◌-◌, ◌*◌, ◌<◌, ◌≤◌, ◌++◌, map, length, replicate, pos, OnOk};
ghost use Rattle.params.specs.Params.{reach};
ghost use Rattle.record.specs.Layout.{encode, size};
ghost use Rattle.record.specs.Writing.{content_of};
ghost use Rattle.ring.specs.Ring.{Residues, centre, plus, product};
ghost use Rattle.polys.specs.Area.{recombined, values};
ghost use Rattle.drawing.specs.Drawing.{halted};
ghost use Rattle.drawing.specs.Resume.{Subject as PlainSubject};
ghost use Rattle.attempt.specs.Attempt.{Attempts, signs};
ghost use Rattle.attempt.specs.Stages.{Begins, Closes, Commits, answer_to, attempt_of, commitment_to, outcome_of};

pub mod stage;
pub mod stopped;
pub mod subject;

use challenge::challenge;
use drawing::{Halt, draw};
use params::ParamSet;
use polys::{Shared, commit_rows, open_poly, respond_rows};
use record::write;
use refusal::{Fault, Step};
use response::{check, open_response};
use ring::{MOST, Multiply, Poly};
pub use stage::{Committed, Drawn};
use steps::Ended;
pub use stopped::Stopped;
pub use subject::Subject;
use words::{Mark, Source};

// The masks ended in a step of an attempt.
fn masks_ended(attempt: u32, step: Step, mark: Mark) -> Stopped
    ensures { result ≡ Ended.Masks (record { mark = mark; attempt = attempt; step = step }) }
{
    Ended::Masks(Fault {
        mark,
        attempt,
        step,
    })
}

// Tells an attempt's number with the source that ended in it.
fn stop_at(attempt: u32, halt: Halt) -> Stopped
    ensures outcome { outcome_of result ≡ halted halt attempt }
    ensures number { attempt_of result ≡ attempt }
{
    let Halt { ended, step } = halt;
    // Two arms: a `map` of `Ended`, with its contract and its edit, would serve this call alone.
    match ended {
        Ended::Nonces(mark) => Ended::Nonces(Fault {
            mark,
            attempt,
            step,
        }),
        Ended::Masks(mark) => masks_ended(attempt, step, mark),
    }
}

impl Drawn {
    /// Begins an attempt: draws its nonces into the area `y`.
    pub fn draw<const M: usize, S: ParamSet, N: Source, W: Source>(
        number: u32,
        y: &mut [u32],
        nonces: &mut N,
        masks: &mut W,
    ) -> Result<Drawn, Stopped>
        requires some { 0 < M }
        requires most { M ≤ 8 }
        requires sized { length y.old ≡ 2 * M * S.params.n }
        ensures drawn { (u : PlainSubject) → Begins S.params M u number result (recombined S.params M y.new) (N.flow nonces.old) (N.flow nonces.new) (W.flow masks.old) (W.flow masks.new) }
        ensures residues { OnOk result (Residues S.params.p y.new) }
    {
        draw::<M, S, N, W>(y, nonces, masks).map_err(|halt| stop_at(number, halt))?;
        Ok(Drawn { number })
    }

    /// Opens the commitment a·y1 + y2 into `opened`; `shares` is room for its shares.
    pub fn commit<const M: usize, S: ParamSet, P: Multiply<S>, W: Source>(
        self,
        opened: &mut [u32],
        shares: &mut [u32],
        a: Poly<'_, S>,
        y: Shared<'_, 2, M, S>,
        masks: &mut W,
    ) -> Result<Committed, Stopped>
        requires room { (length opened.old ≡ S.params.n) × (length shares.old ≡ M * S.params.n) }
        ensures { Commits S.params M self.number result (commitment_to S.params a.entry.words.now (recombined S.params M y.entry.area.now)) opened.new (W.flow masks.old) (W.flow masks.new) }
    {
        let Drawn { number } = self;
        commit_rows::<M, S, P>(shares, a, y);
        let r = Shared::<1, M, S>::new(shares);
        open_poly(opened, r, masks).map_err(|mark| masks_ended(number, Step::Commit, mark))?;
        Ok(Committed { number })
    }
}

impl Committed {
    /// Closes the attempt with its challenge c: z = s·c + y, which is opened if it passes the check. `shares` is room for the shares of z.
    pub fn close<const M: usize, S: ParamSet, P: Multiply<S>, W: Source>(
        self,
        opened: &mut [i16],
        shares: &mut [u32],
        key: Shared<'_, 2, M, S>,
        y: Shared<'_, 2, M, S>,
        c: Poly<'_, S>,
        masks: &mut W,
    ) -> Result<bool, Stopped>
        requires room { (length opened.old ≡ 2 * S.params.n) × (length shares.old ≡ 2 * M * S.params.n) }
        ensures { Closes S.params M self.number result (answer_to S.params (recombined S.params M key.entry.area.now) c.entry.words.now (recombined S.params M y.entry.area.now)) opened.new (W.flow masks.old) (W.flow masks.new) }
    {
        let Committed { number } = self;
        respond_rows::<M, S, P>(shares, key, y, c);
        let z = Shared::<2, M, S>::new(shares);
        let passes = check(z, masks).map_err(|mark| masks_ended(number, Step::Check, mark))?;
        if !passes {
            return Ok(false);
        }
        open_response(opened, z, masks).map_err(|mark| masks_ended(number, Step::Open, mark))?;
        Ok(true)
    }
}

// Writes a record into an area of its size. Its four parts come together only here.
fn write_record<S: ParamSet>(out: &mut [u8], counter: u16, digest: &[u8; 32], z: &[i16], c: &[u32])
    requires out { length out.old ≡ size S.params }
    requires z { length z.now ≡ 2 * S.params.n }
    requires c { length c.now ≡ S.params.n }
    ensures { out.new ≡ encode S.params (content_of counter digest.now z.now c.now) }
{
    // Every size fits, and nothing else is refused.
    match write::<S>(out, counter, digest, z, c) {
        Ok(()) => {}
        Err(_) => unreachable(),
    }
}

/// One attempt, from its first draw to its record, which is written if it passes.
// The areas and the sources are lent one by one: a struct of them would want a clause in each contract that it still lends the same ones.
pub fn attempt<const M: usize, S: ParamSet, P: Multiply<S>, N: Source, W: Source>(
    number: u32,
    subject: Subject<'_, S>,
    work: &mut [u32],
    record: &mut [u8],
    nonces: &mut N,
    masks: &mut W,
) -> Result<bool, Stopped>
    requires shares { M ≡ subject.shares.count }
    requires work { length work.old ≡ 6 * M * S.params.n }
    requires record { length «record».old ≡ size S.params }
    ensures { Attempts S.params M (signs S.params M subject.entry) number result «record».old «record».new (N.flow nonces.old) (N.flow nonces.new) (W.flow masks.old) (W.flow masks.new) }
{
    let n = S::degree();
    let (y, rest) = work.split_at_mut(2 * M * n);
    let (z, rest) = rest.split_at_mut(2 * M * n);
    let (r, rest) = rest.split_at_mut(M * n);
    let opened = &mut rest[0..n];
    let Subject {
        key,
        a,
        digest,
        counter,
        ..
    } = subject;
    let drawn = Drawn::draw::<M, S, N, W>(number, y, nonces, masks)?;
    let y = Shared::<2, M, S>::new(y);
    let committed = drawn.commit::<M, S, P, W>(opened, r, a, y, masks)?;
    // The shares of the commitment are of no more use.
    let c = &mut r[0..n];
    challenge::<S>(c, opened, digest, counter);
    let mut room = [0; 2 * MOST];
    let answer = &mut room[0..2 * n];
    let key = Shared::<2, M, S>::new(key);
    let passed = committed.close::<M, S, P, W>(answer, z, key, y, Poly::new(c), masks)?;
    if passed {
        write_record::<S>(record, counter, digest, answer, c);
    }
    Ok(passed)
}
