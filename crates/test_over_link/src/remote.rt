//! `calls`: bytes of calls and replies, numbers, noise, each way of serving and waiting, whole exchanges, and sealed calls.

mod checks;
mod exchanges;
mod noise;
mod seals;
mod served;
mod waiting;
mod whole;
