//! A book that reads and that opens a session: its records, made as calls of that session, and the text that they give.
ghost use Rattle.std.specs.Prelude.{◌≡◌, ◌≤◌, IfOk};
ghost use Rattle.book.specs.Reading.{entries};
ghost use Rattle.orders.specs.Settlement.{opening};
ghost use Rattle.orders.specs.Held.{session_of};
ghost use Rattle.steps.specs.Ways.{Uniform as UniformWay};
ghost use Rattle.history.specs.Histories.{run};
ghost use Rattle.sheets.specs.Calls.{sharing_of, paired_at, continuous_way, way_of, calls_of, Suits};
ghost use Rattle.sheets.specs.Sheet.{history_text};

use crate::asks::{ask_of, order_of};
use crate::calls::{MakesRounds, place, withdraw};
use crate::growing::Sheet;
use book::{Book, Entry, Sharing, Way};
use ranking::orders::{Continuous as ContinuousRanking, Paired};
use ranking::{OrderQuote, Ranked, Ranking};
use rules::pair::{BuyersPrice, EarlierOrders, HalfTheSum, PairPrice, SellersPrice};
use rules::price::{Crossing, PriceRule, Principles};
use rules::sharing::{EarliestFirst, LargestFirst, ProRata, SharingRule};
use session::auction::{Auction, PairedRules, UniformRules};
use session::batch::Taking;
use session::continuous::Continuous;
use session::market::{Market, TakesOrders};
use session::opening::Opening;
use std::alloc::{AllocError, Global};

/// A book that reads, and the figures that its header opens a session with.
pub(crate) struct Opened<'a> {
    pub heap: Global,
    pub figures: Opening,
    pub book: Book<'a>,
    ghost opens: { (figures.period.quarters ≡ book.header.period) × (figures.reference.value ≡ book.header.reference) },
}

impl<'a> Opened<'a> {
    /// The text of the history of the book's calls, made to a session that is just opened.
    fn made_to<W: Drop, S: MakesRounds<W> + Drop>(
        self,
        session: Market<W, S>,
    ) -> Result<Vec<u8>, AllocError>
        requires { Suits (S.TakesOrders.way session.rules) (entries self.book.rest.now) }
        ensures { session_of session.tables ≡ opening self.entry.book.header.period → IfOk result (λ text. text.items ≡ history_text (run (S.TakesOrders.way session.rules) self.entry.book.header.period (calls_of (entries self.entry.book.rest.now)))) }
    {
        let Opened {
            heap,
            figures: _,
            book,
        } = self;
        let mut session = session;
        let mut sheet = Sheet::new(heap);
        for (i, record) in book.enumerate() {
            let number = i + 1;
            match Entry::from(record) {
                Entry::Place(placement) => {
                    place(&mut session, &mut sheet, number, ask_of(placement))?
                }
                Entry::Withdraw(withdrawal) => {
                    withdraw(&mut session, &mut sheet, number, order_of(withdrawal))?
                }
                Entry::Round => S::round(&mut session, &mut sheet)?,
            }
        }
        sheet.put_accounts(&session)?;
        Ok(sheet.text)
    }

    /// The text of a book of rounds by these rules.
    fn in_rounds<A: Auction + Drop>(self, auction: A) -> Result<Vec<u8>, AllocError>
        ensures { IfOk result (λ text. text.items ≡ history_text (run (A.Auction.way auction) self.entry.book.header.period (calls_of (entries self.entry.book.rest.now)))) }
    {
        auction.vouch();
        let session = Taking::open(self.figures, auction);
        self.made_to(session)
    }

    /// The text of a book of uniform rounds.
    fn uniform<P: PriceRule + Drop, S: SharingRule + Drop>(
        self,
        price: P,
        sharing: S,
    ) -> Result<Vec<u8>, AllocError>
        ensures { IfOk result (λ text. text.items ≡ history_text (run (UniformWay P.PriceRule.meaning S.SharingRule.meaning self.entry.book.header.reference) self.entry.book.header.period (calls_of (entries self.entry.book.rest.now)))) }
    {
        let rules = UniformRules::new(price, sharing, self.figures.reference);
        self.in_rounds(rules)
    }

    /// The text of a book of uniform rounds, with the sharing rule that its header names.
    fn shared<P: PriceRule + Drop>(self, price: P) -> Result<Vec<u8>, AllocError>
        ensures { IfOk result (λ text. text.items ≡ history_text (run (UniformWay P.PriceRule.meaning (sharing_of self.entry.book.header.sharing) self.entry.book.header.reference) self.entry.book.header.period (calls_of (entries self.entry.book.rest.now)))) }
    {
        match self.book.sharing() {
            Sharing::EarliestFirst => self.uniform(price, EarliestFirst),
            Sharing::LargestFirst => self.uniform(price, LargestFirst),
            Sharing::ProRata => self.uniform(price, ProRata),
        }
    }

    /// The text of a book of paired rounds.
    fn paired<P: PairPrice + Drop>(self, price: P) -> Result<Vec<u8>, AllocError>
        ensures { IfOk result (λ text. text.items ≡ history_text (run (paired_at P.PairPrice.meaning) self.entry.book.header.period (calls_of (entries self.entry.book.rest.now)))) }
    {
        self.in_rounds(PairedRules::<Paired, P>::new(price))
    }

    /// The text of a continuous book.
    fn continuous(self) -> Result<Vec<u8>, AllocError>
        requires { 5 ≤ self.book.header.way }
        ensures { IfOk result (λ text. text.items ≡ history_text (run continuous_way self.entry.book.header.period (calls_of (entries self.entry.book.rest.now)))) }
    {
        let session: Continuous<ContinuousRanking, EarlierOrders> = Continuous::open(
            self.figures,
            EarlierOrders,
        );
        self.made_to(session)
    }

    /// The text of the book, cleared by the way that its header names.
    #[tactic(auto, unfolding(crate::specs::Calls::way_of))]
    pub(crate) fn cleared(self) -> Result<Vec<u8>, AllocError>
        ensures { IfOk result (λ text. text.items ≡ history_text (run (way_of self.entry.book.header) self.entry.book.header.period (calls_of (entries self.entry.book.rest.now)))) }
    {
        match self.book.way() {
            Way::Crossing => self.shared(Crossing),
            Way::Principles => self.shared(Principles),
            Way::BuyersPrice => self.paired(BuyersPrice),
            Way::SellersPrice => self.paired(SellersPrice),
            Way::HalfTheSum => self.paired(HalfTheSum),
            Way::Continuous => self.continuous(),
        }
    }
}
