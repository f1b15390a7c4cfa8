//! The groups that a service is opened with.

use crate::service::Service;
use bh_audit::Book;
use bh_lender::StepLog;
use std::marker::{Model, PhantomData};

/// The groups of a service with their account, and the log of their steps, where one is kept.
///
/// By its type they are some with which such a service may be opened.
#[derive(Drop)]
pub struct Opening<S: Service> {
    pub book: Book,
    pub log: Option<StepLog>,
    pub of: PhantomData<S>,
}

impl<S: Service> Model for Opening<S> {
    ghost use Rattle.bh_sharing.specs.Service.{OpeningView};

    ghost Value = { OpeningView };

    ghost view = { λ o. record { book = o.book; log = o.log } };

    ghost invariant = { λ o. ∥ S.facts.opened o.book.groups ∥₁ };
}
