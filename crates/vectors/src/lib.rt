// Worked examples of hosts, charts, lines, texts and runs, run as tests.
#![tactic(auto)]

#[cfg(test)]
mod calls_examples;
#[cfg(test)]
mod hosts_examples;
#[cfg(test)]
mod lines_examples;
#[cfg(test)]
mod stops_examples;
#[cfg(test)]
mod texts_examples;
