//! Texts of faults, most of which no command prints.

use dis_records::DatumFault;
use exercise_check::CertificateWriterFault;
use exercise_model::LogFault;
use exercise_recording::WriterFault;
use siman_application::AppFault;
use siman_manager::OrderFault;
use siman_pdus::EncodeFault;
use std::alloc::Global;
use std::fmt::Display;

/// Whether a value displays as this text.
fn is_told<D: Display + Drop>(alloc: Global, fault: D, text: &str) -> bool {
    match format!(in alloc; "{fault}") {
        Ok(told) => told.as_str() == text,
        Err(_) => false,
    }
}

/// Whether each value displays as its text.
fn are_displayed<D: Display + Copy + Drop>(alloc: Global, rows: &[(D, &str)]) -> bool {
    for (fault, text) in rows {
        if !is_told(alloc, *fault, *text) {
            return false;
        }
    }
    true
}

#[test]
fn faults_of_writers_have_names(rt: HostRuntime) {
    let alloc = rt.alloc();
    let recordings = [
        (WriterFault::Write, "write"),
        (WriterFault::Spent, "spent"),
        (WriterFault::Count, "count"),
        (WriterFault::Argument, "argument"),
    ];
    let logs = [
        (LogFault::Argument, "argument"),
        (LogFault::Count, "count"),
        (LogFault::Memory, "memory"),
    ];
    let pdus = [
        (EncodeFault::TooLong, "too long"),
        (EncodeFault::Memory, "memory"),
    ];
    assert!(rt;
        are_displayed(alloc, &recordings)
            && are_displayed(alloc, &logs)
            && are_displayed(alloc, &pdus)
    );
    assert!(rt; is_told(alloc, CertificateWriterFault::Write, "write"));
}

#[test]
fn faults_of_datums_stations_and_managers_have_names(rt: HostRuntime) {
    let alloc = rt.alloc();
    let stations = [
        (AppFault::Memory, "memory"),
        (AppFault::TooMany, "too-many"),
    ];
    let managers = [
        (OrderFault::IdsSpent, "ids-spent"),
        (OrderFault::TooLong, "too-long"),
        (OrderFault::Memory, "memory"),
    ];
    assert!(rt; are_displayed(alloc, &stations) && are_displayed(alloc, &managers));
    assert!(rt; is_told(alloc, DatumFault::WrongSize(Vec::new(alloc)), "wrong size"));
    assert!(rt;
        is_told(
            alloc,
            DatumFault::UnusedBits(Vec::new(alloc)),
            "unused bits"
        )
    );
}
