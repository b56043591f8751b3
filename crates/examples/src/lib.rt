// Worked examples over the whole library: calls and their answers, states, schedules, windows, verdicts, texts in and out.
#![tactic(auto)]

#[cfg(test)]
mod answers;
#[cfg(test)]
mod calls;
#[cfg(test)]
mod clocks;
#[cfg(test)]
mod frames_by_hand;
#[cfg(test)]
mod judged;
#[cfg(test)]
mod lines;
#[cfg(test)]
mod numbers;
#[cfg(test)]
mod printed;
#[cfg(test)]
mod reports;
#[cfg(test)]
mod runs;
#[cfg(test)]
mod sealing;
#[cfg(test)]
mod seen;
#[cfg(test)]
mod texts;
#[cfg(test)]
mod windows_by_hand;
