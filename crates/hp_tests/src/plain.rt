//! A service that answers a step without a machine.
ghost use Rattle.hp_model.specs.beside.Told.{told_reply};
ghost use Rattle.hp_model.specs.text.Writing.{IsWithinLimits};

use hp_model::answer::Reply;
use hp_model::refusal::Refusal;
use hp_model::service::{Access, Service};
use hp_model::step::{Intent, Step};
use hp_model::told::Told;
use std::marker::Model;

/// What is told of a step, and of a fault.
pub trait Tells {
    /// Notes a call.
    fn note(&mut self);

    fn told(&self, step: &Step<'_>) -> Result<Told<'static>, Refusal>
        ensures { IsWithinLimits (told_reply result) };

    fn fault(&self) -> Result<(), Refusal>;
}

/// Each load answers the same two bytes.
#[derive(Drop)]
pub struct Plain<T> {
    pub by: T,
}

impl<T> Model for Plain<T> {
    ghost Value = { T };

    ghost view = { λ plain. plain.by };
}

impl<T: Tells> Service for Plain<T> {
    ghost may_answer = { λ old step reply new. Unit {0} };

    ghost page = { λ plain. 1024 };

    ghost is_ready = { λ plain. Unit {0} };

    fn call(&mut self, step: &Step<'_>) -> Reply {
        self.by.note();
        match self.by.told(step) {
            Ok(told) => Ok(told.into_answer()),
            Err(refusal) => Err(refusal),
        }
    }

    fn answer<'a>(
        &mut self,
        step: &Step<'_>,
        _room: &'a mut [u8],
        reply: &mut Result<Told<'a>, Refusal>,
    ) {
        self.by.note();
        *reply = self.by.told(step);
    }

    fn load<'a>(
        &mut self,
        _access: &Access,
        _count: u64,
        room: &'a mut [u8],
    ) -> Result<&'a [u8], Refusal> {
        self.by.note();
        let (front, _) = room.split_at_mut(2);
        front.copy_from_slice(&[255, 0]);
        Ok(front)
    }

    fn store(&mut self, _access: &Access, _bytes: &[u8]) -> Result<(), Refusal> {
        self.by.note();
        Ok(())
    }

    fn fault(&mut self, _access: &Access, _intent: Intent) -> Result<(), Refusal> {
        self.by.note();
        self.by.fault()
    }

    fn page_bytes(&self) -> u64 {
        1024
    }
}
